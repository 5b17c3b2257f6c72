// The good records of a store.
ghost use Rattle.std.specs.Prelude.{◌≡◌, ◌*◌, ◌++◌, true, length, IfSome, OnOk};
ghost use Rattle.std.specs.Option.{ForSome};
ghost use Rattle.rip_basics.specs.FileNames.{ends_in_slash};
ghost use Rattle.rip_outside.specs.Files.{IsHeld, bytes_at};
ghost use Rattle.rip_outside.specs.Reading.{OnlyReads};
ghost use Rattle.rip_inputs.specs.Opening.{lengths_of};
ghost use Rattle.store_upkeep.specs.Entries.{entries_in, entry_state};
ghost use Rattle.parity_store.specs.Reading.{stored_of};
ghost use Rattle.engine_steps.specs.Steps.{EndsWithCause, ReadsOnly, Takes};
ghost use Rattle.engine_steps.specs.Outcome.{Leaves};
ghost use Rattle.cmd_store.specs.StoreOutcome.{IsListOutcome, line_of_stored, listed_line, version_of};

use crate::opening::{look_stop, open_store};
use engine_steps::{Answer, Stop};
use parity_store::Record;
use rip_outside::{Folder, Oom, Shelf};
use rip_report::{Status, StoreLines};
use std::alloc::Global;
use store_upkeep::{Seen, look};

// The version of a record: 2 with a seal, 1 without.
fn version_of(seal: Option<[u8; 32]>) -> u8
    ensures { result ≡ version_of seal }
{
    match seal {
        Some(_) => 2,
        None => 1,
    }
}

// Adds the line of a good record.
fn add_stored(lines: &mut StoreLines, name: &str, rec: &Record) -> Result<(), Oom>
    ensures { OnOk result (lines.new ≡ lines.old ++ line_of_stored name.now (stored_of rec.now)) }
{
    let version = version_of(rec.seal);
    let sectors = rec.layout.sectors;
    let tracks = rec.layout.starts.as_slice().len() as u32;
    lines.add_stored(name, version, rec.parity.count(), sectors, tracks)
}

// Adds the line of an entry, if it is good.
fn list_entry<S: Shelf>(
    alloc: Global,
    shelf: &mut S,
    store: &str,
    name: &str,
    lines: &mut StoreLines,
) -> Result<(), Stop>
    requires held { ForSome (S.held shelf.old) (IsHeld name.now) }
    ensures lines { IfSome (S.held shelf.old) (λ files. OnOk result (lines.new ≡ lines.old ++ listed_line name.now (entry_state store.now files name.now))) }
    ensures only { OnlyReads S.Shelf shelf.old shelf.new }
    ensures cause { ReadsOnly (S.faults shelf.old) (S.faults shelf.new) result }
    ensures taken { IfSome (S.held shelf.old) (λ files. Takes (length (bytes_at name.now files)) result (S.taken shelf.old) (S.taken shelf.new)) }
{
    match look(alloc, shelf, store, name) {
        Ok(Seen::Good(rec)) => {
            add_stored(lines, name, &rec)?;
            Ok(())
        }
        Ok(_) => Ok(()),
        Err(fail) => Err(look_stop(fail)),
    }
}

/// Tells the good records of a store, each in a line, in the order of the bytes of their names.
pub fn list<F: Folder>(alloc: Global, shelf: &mut F, store: &str) -> Result<Answer, Stop>
    requires store { ends_in_slash store.now ≡ true }
    ensures leaves { IfSome (F.held shelf.old) (λ files. Leaves (IsListOutcome store.now files) files result (F.held shelf.new)) }
    ensures cause { EndsWithCause (F.faults shelf.old) (F.faults shelf.new) result }
    ensures only { OnlyReads F.Shelf shelf.old shelf.new }
    ensures taken { IfSome (F.held shelf.old) (λ files. Takes (3 * lengths_of (entries_in store.now files) files) result (F.taken shelf.old) (F.taken shelf.new)) }
{
    let names = open_store(alloc, shelf, store)?;
    let mut lines = StoreLines::new(alloc);
    for name in names.as_slice() {
        list_entry(alloc, shelf, store, name.as_str(), &mut lines)?;
    }
    Ok(Answer {
        status: Status::Done,
        text: lines.done(),
    })
}
