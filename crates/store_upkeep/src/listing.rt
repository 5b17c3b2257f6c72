// The entries of a store.
ghost use Rattle.std.specs.Prelude.{◌≡◌, true, All, filter, IfSome, IfOk, IsErrOf};
ghost use Rattle.rip_basics.specs.FileNames.{ends_in_slash};
ghost use Rattle.rip_outside.specs.Causes.{HasCause};
ghost use Rattle.rip_outside.specs.Listing.{stands_in};
ghost use Rattle.rip_outside.specs.Reading.{OnlyReads};
ghost use Rattle.rip_outside.specs.declared.fault.ShelfCall.{ShelfCall};
ghost use Rattle.store_upkeep.specs.Entries.{entries_in, is_entry};

use rip_outside::{Folder, Name, Names, ShelfFail};
use std::alloc::Global;

/// Why a store wasn't listed.
#[derive(Clone, Copy, Debug, PartialEq, Eq)]
pub enum EntriesFail {
    /// The listing failed and was counted.
    ReadFault,
    /// Memory was wanting.
    Oom,
}

// Whether a name is an entry's: it ends in `.rpar`.
fn is_entry(name: &str) -> bool
    ensures { result ≡ is_entry name.now }
{
    name.ends_with(".rpar")
}

// Leaves the entries in a list of names.
fn keep_entries(names: &mut Vec<Name>)
    ensures { names.new.items ≡ filter is_entry names.old.items }
{
    names.retain(|name| is_entry(name.as_str()));
}

/// The entries of a store, in the order of the bytes of their names. The folder's own name ends in `/`.
pub fn entries<F: Folder>(alloc: Global, folder: &mut F, store: &str) -> Result<Names, EntriesFail>
    requires store { ends_in_slash store.now ≡ true }
    ensures answer { IfSome (F.held folder.old) (λ files. IfOk result (λ names. names ≡ entries_in store.now files)) }
    ensures inside { IfOk result (λ names. All (λ name. stands_in store.now name ≡ true) names) }
    ensures only { OnlyReads F.Shelf folder.old folder.new }
    ensures cause { HasCause ShelfCall.List (F.faults folder.old) (F.faults folder.new) (IsErrOf result EntriesFail.ReadFault) }
    ensures taken { F.taken folder.new ≡ F.taken folder.old }
{
    match folder.list(alloc, store) {
        Ok(names) => {
            let mut list = names.into_vec();
            keep_entries(&mut list);
            Ok(Names::of(list))
        }
        Err(ShelfFail::Failed) => Err(EntriesFail::ReadFault),
        Err(ShelfFail::Oom) => Err(EntriesFail::Oom),
    }
}
