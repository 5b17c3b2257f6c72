// A record that is copied from one store to another.
ghost use Rattle.std.specs.Prelude.{◌≡◌, true, length, IfSome, IfErr, IsOk, None, OnOk};
ghost use Rattle.std.specs.Option.{ForSome};
ghost use Rattle.std.specs.FinMap.{get};
ghost use Rattle.rip_outside.specs.Files.{Becomes, LeavesName, WhereTold, after_put, bytes_at};
ghost use Rattle.rip_outside.specs.Crashes.{StoresWhole, WhereForetold};
ghost use Rattle.rip_outside.specs.Causes.{NoneFell};
ghost use Rattle.rip_outside.specs.Outputs.{part_of};
ghost use Rattle.rip_outside.specs.declared.fault.ShelfCall.{ShelfCall};
ghost use Rattle.parity_store.specs.Reading.{most_bytes};
ghost use Rattle.store_upkeep.specs.Entries.{entry_state};
ghost use Rattle.store_upkeep.specs.Looking.{is_good};
ghost use Rattle.engine_outputs.specs.Writing.{RefusesNothing};
ghost use Rattle.engine_steps.specs.declared.steps.Stop.{Stop};
ghost use Rattle.engine_steps.specs.Steps.{StopsWithCause, Takes};

use cmd_store::look_stop;
use engine_steps::{Stop, put_stop};
use parity_store::put;
use rip_outside::{Name, Shelf};
use rip_report::Status;
use std::alloc::Global;
use store_upkeep::copy_good;

/// Copies a good record under another name, where no file has it. A record that isn't good any more, which can be only
/// where the shelf doesn't tell what it holds, isn't copied, and is told as none.
pub(crate) fn copy_entry<S: Shelf>(
    alloc: Global,
    shelf: &mut S,
    from: &str,
    name: &str,
    part: &str,
    out: &str,
    bytes: &mut [u8],
) -> Result<(), Stop>
    requires part { part.now ≡ part_of out.now }
    requires room { length bytes.old ≡ most_bytes }
    requires free { ForSome (S.held shelf.old) (λ files. get files out.now ≡ None) }
    requires good { ForSome (S.held shelf.old) (λ files. is_good (entry_state from.now files name.now) ≡ true) }
    ensures ok { OnOk result (Becomes (λ files. after_put part.now out.now (bytes_at name.now files) files) (S.held shelf.old) (S.held shelf.new)) }
    ensures refused { IfErr result (λ stop. WhereTold (λ old new. LeavesName part.now out.now (bytes_at name.now old) (stop ≡ Stop.WriteFault ShelfCall.Rename) old new) (S.held shelf.old) (S.held shelf.new)) }
    ensures writing { IfSome (S.held shelf.old) (λ files. IfErr result RefusesNothing) }
    ensures crashes { WhereForetold (StoresWhole (λ old left. LeavesName part.now out.now (bytes_at name.now old) (Unit {0}) old left) (IsOk result)) (S.crashes shelf.old) (S.crashes shelf.new) }
    ensures cause { StopsWithCause (S.faults shelf.old) (S.faults shelf.new) result }
    ensures later { NoneFell (S.faults shelf.old) (S.faults shelf.new) }
    ensures room { length bytes.new ≡ most_bytes }
    ensures taken { IfSome (S.held shelf.old) (λ files. Takes (length (bytes_at name.now files)) result (S.taken shelf.old) (S.taken shelf.new)) }
{
    let size = match copy_good(alloc, shelf, from, name, bytes) {
        Ok(Some(size)) => size,
        Ok(None) => {
            let name = Name::copied(alloc, name)?;
            return Err(Stop::Refused(Status::NoRecord { name }));
        }
        Err(fail) => return Err(look_stop(fail)),
    };
    match put(shelf, &bytes[..size], part, out) {
        Ok(()) => Ok(()),
        Err(fail) => Err(put_stop(fail)),
    }
}
