// A store's entries, and how a failed look at one ends a command.
ghost use Rattle.std.specs.Prelude.{◌≡◌, true, All, IfSome, IfOk};
ghost use Rattle.rip_basics.specs.FileNames.{ends_in_slash};
ghost use Rattle.rip_outside.specs.Listing.{stands_in};
ghost use Rattle.rip_outside.specs.Reading.{OnlyReads};
ghost use Rattle.store_upkeep.specs.Entries.{entries_in};
ghost use Rattle.engine_steps.specs.Steps.{ReadsOnly};
ghost use Rattle.cmd_store.specs.StoreOutcome.{look_stop};

use engine_steps::Stop;
use rip_outside::{Folder, Names, ShelfCall};
use std::alloc::Global;
use store_upkeep::{EntriesFail, LookFail, entries};

/// The entries of a store, in the order of the bytes of their names.
pub fn open_store<F: Folder>(alloc: Global, shelf: &mut F, store: &str) -> Result<Names, Stop>
    requires store { ends_in_slash store.now ≡ true }
    ensures answer { IfSome (F.held shelf.old) (λ files. IfOk result (λ names. names ≡ entries_in store.now files)) }
    ensures inside { IfOk result (λ names. All (λ name. stands_in store.now name ≡ true) names) }
    ensures only { OnlyReads F.Shelf shelf.old shelf.new }
    ensures cause { ReadsOnly (F.faults shelf.old) (F.faults shelf.new) result }
    ensures taken { F.taken shelf.new ≡ F.taken shelf.old }
{
    match entries(alloc, shelf, store) {
        Ok(names) => Ok(names),
        Err(EntriesFail::ReadFault) => Err(Stop::ReadFault {
            call: ShelfCall::List,
        }),
        Err(EntriesFail::Oom) => Err(Stop::Oom),
    }
}

/// A look's failure, as a stop of the command.
pub fn look_stop(fail: LookFail) -> Stop
    ensures { result ≡ look_stop fail }
{
    match fail {
        LookFail::ReadFault { call } => Stop::ReadFault { call },
        LookFail::Oom => Stop::Oom,
    }
}
