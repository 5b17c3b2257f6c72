// The bad records of a store.
ghost use Rattle.std.specs.Prelude.{◌≡◌, ◌*◌, ◌++◌, true, length, IfOk, IfSome, OnOk};
ghost use Rattle.std.specs.Option.{ForSome};
ghost use Rattle.rip_basics.specs.FileNames.{ends_in_slash};
ghost use Rattle.rip_outside.specs.Files.{IsHeld, bytes_at};
ghost use Rattle.rip_outside.specs.Reading.{OnlyReads};
ghost use Rattle.rip_inputs.specs.Opening.{lengths_of};
ghost use Rattle.store_upkeep.specs.Entries.{entries_in, entry_state};
ghost use Rattle.engine_steps.specs.Steps.{EndsWithCause, ReadsOnly, Takes};
ghost use Rattle.engine_steps.specs.Outcome.{Leaves};
ghost use Rattle.cmd_store.specs.StoreOutcome.{IsCheckOutcome, checked_status, faulty_line, is_bad};

use crate::opening::{look_stop, open_store};
use engine_steps::{Answer, Stop};
use parity_store::id_text;
use rip_outside::{Folder, Shelf};
use rip_report::{Status, StoreLines};
use std::alloc::Global;
use store_upkeep::{Seen, look};

// Adds the line of an entry, if it is bad, and answers whether it is.
fn check_entry<S: Shelf>(
    alloc: Global,
    shelf: &mut S,
    store: &str,
    name: &str,
    lines: &mut StoreLines,
) -> Result<bool, Stop>
    requires held { ForSome (S.held shelf.old) (IsHeld name.now) }
    ensures lines { IfSome (S.held shelf.old) (λ files. OnOk result (lines.new ≡ lines.old ++ faulty_line name.now (entry_state store.now files name.now))) }
    ensures bad { IfSome (S.held shelf.old) (λ files. IfOk result (λ bad. bad ≡ is_bad store.now files name.now)) }
    ensures only { OnlyReads S.Shelf shelf.old shelf.new }
    ensures cause { ReadsOnly (S.faults shelf.old) (S.faults shelf.new) result }
    ensures taken { IfSome (S.held shelf.old) (λ files. Takes (length (bytes_at name.now files)) result (S.taken shelf.old) (S.taken shelf.new)) }
{
    match look(alloc, shelf, store, name) {
        Ok(Seen::Good(_)) => Ok(false),
        Ok(Seen::Bad { kind }) => {
            lines.add_bad(name, kind)?;
            Ok(true)
        }
        Ok(Seen::Misnamed { key }) => {
            lines.add_misnamed(name, id_text(&key))?;
            Ok(true)
        }
        Err(fail) => Err(look_stop(fail)),
    }
}

// Success, or how many records are bad.
fn checked_status(bad: u64) -> Status
    ensures { result ≡ checked_status bad }
{
    if bad == 0 {
        Status::Done
    } else {
        Status::BadRecords { bad }
    }
}

/// Tells the bad records of a store, each in a line, in the order of the bytes of their names, and then how many entries there
/// are and how many of them are bad.
pub fn check<F: Folder>(alloc: Global, shelf: &mut F, store: &str) -> Result<Answer, Stop>
    requires store { ends_in_slash store.now ≡ true }
    ensures leaves { IfSome (F.held shelf.old) (λ files. Leaves (IsCheckOutcome store.now files) files result (F.held shelf.new)) }
    ensures cause { EndsWithCause (F.faults shelf.old) (F.faults shelf.new) result }
    ensures only { OnlyReads F.Shelf shelf.old shelf.new }
    ensures taken { IfSome (F.held shelf.old) (λ files. Takes (3 * lengths_of (entries_in store.now files) files) result (F.taken shelf.old) (F.taken shelf.new)) }
{
    let names = open_store(alloc, shelf, store)?;
    let mut lines = StoreLines::new(alloc);
    let mut bad: u64 = 0;
    for name in names.as_slice() {
        let is_bad = check_entry(alloc, shelf, store, name.as_str(), &mut lines)?;
        bad += u64::from(is_bad);
    }
    lines.add_checked(names.as_slice().len() as u64, bad)?;
    Ok(Answer {
        status: checked_status(bad),
        text: lines.done(),
    })
}
