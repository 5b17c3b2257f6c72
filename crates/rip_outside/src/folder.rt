// A folder whose names can be listed.
ghost use Rattle.std.specs.Prelude.{◌≡◌, true, IfSome, IfOk, IsErrOf, All};
ghost use Rattle.rip_basics.specs.FileNames.{ends_in_slash};
ghost use Rattle.rip_outside.specs.Listing.{names_in, stands_in};
ghost use Rattle.rip_outside.specs.Causes.{HasCause};
ghost use Rattle.rip_outside.specs.Crashes.{Rests, WhereForetold};

use crate::{Names, Shelf, ShelfFail};
use std::alloc::Global;

/// A shelf whose names can be listed, folder by folder.
pub trait Folder: Shelf {
    ghost use Rattle.rip_outside.specs.declared.fault.ShelfCall.{ShelfCall};

    /// The names that stand directly in a folder, whose own ends in `/`: each begins with it, and goes on with at least one
    /// byte and no `/`. Where the files are told, they are all such names that are held, in the order of their bytes.
    fn list(&mut self, alloc: Global, folder: &str) -> Result<Names, ShelfFail>
        requires folder { ends_in_slash folder.now ≡ true }
        ensures inside { IfOk result (λ names. All (λ name. stands_in folder.now name ≡ true) names) }
        ensures value { IfSome (Self.held self.old) (λ files. IfOk result (λ names. names ≡ names_in folder.now files)) }
        ensures same { Self.held self.new ≡ Self.held self.old }
        ensures crashes { WhereForetold Rests (Self.crashes self.old) (Self.crashes self.new) }
        ensures cause { HasCause ShelfCall.List (Self.faults self.old) (Self.faults self.new) (IsErrOf result ShelfFail.Failed) }
        ensures taken { Self.taken self.new ≡ Self.taken self.old };

    /// A command begins after others: what a shelf keeps by itself of the calls before, such as which file was read last, is
    /// forgotten, as in a new one. Nothing that is held or counted changes.
    fn forget(&mut self)
        ensures same { Self.held self.new ≡ Self.held self.old }
        ensures crashes { WhereForetold Rests (Self.crashes self.old) (Self.crashes self.new) }
        ensures faults { Self.faults self.new ≡ Self.faults self.old }
        ensures taken { Self.taken self.new ≡ Self.taken self.old };
}
