// A shelf in memory that keeps its calls, and tells what a crash may leave.
ghost use Rattle.std.specs.Option.{option_map};
ghost use Rattle.std.specs.FinMap.{get};
ghost use Rattle.rip_outside.specs.Crashes.{is_among};
ghost use Rattle.rip_memory.specs.Filling.{first_half};
ghost use Rattle.std.specs.Prelude.{List, ℕ, IsTrue, None, if◌then◌else◌, ◌≡◌, ◌≤◌, ◌++◌, ◌∷◌, [], length, take, IfOk, OnOk, OnErr, Some};
ghost use Rattle.rip_outside.specs.Counts.{count_of};
ghost use Rattle.rip_outside.specs.Crashes.Outlook.{Foretold};
ghost use Rattle.rip_memory.specs.Served.{MayLeaveAfter, files_after, unsettled_after};
ghost use Rattle.rip_memory.specs.ServedCrashes.{crashes_of};

use crate::leftover::{redo_all, tear_all};
use crate::memory_shelf::MemoryShelf;
use crate::quiet_shelf::QuietShelf;
use crate::served::{Bytes, Served, add_call, keep_call, ready, take_name};
use rip_outside::{Fault, Folder, Name, Names, Oom, Shelf, ShelfCall, ShelfFail};
use std::alloc::Global;
use std::marker::Model;

/// A shelf in memory that keeps a record of the calls that change it, and tells what a crash may leave. Its calls fail where
/// they were listed to fail. A call that wants memory counts as not made.
#[derive(Drop)]
pub struct CrashShelf {
    alloc: Global,
    shelf: MemoryShelf,
    calls: Vec<Served>,
    unsettled: Vec<Name>,
}

impl Model for CrashShelf {
    ghost use Rattle.std.specs.Prelude.{vec_capacity};
    ghost use Rattle.rip_memory.specs.Served.{CrashFiles};
    ghost use Rattle.rip_memory.specs.KeepsCalls.{KeepsCalls};

    ghost Value = { CrashFiles };

    ghost view = { λ s. record { calls = s.calls.items; faults = s.shelf.faults; taken = s.shelf.taken; listed = s.shelf.listed } };

    ghost invariant = { λ s. KeepsCalls s.shelf.files s.calls.items s.unsettled.items (vec_capacity s.calls) };
}

impl CrashShelf {
    /// It holds nothing, no call is to fail, and it has served none.
    pub fn new(alloc: Global) -> Self
        ensures calls { result.calls ≡ [] }
        ensures faults { (call : _) → count_of result.faults call ≡ 0 }
        ensures taken { result.taken ≡ 0 }
        ensures listed { result.listed ≡ [] }
    {
        CrashShelf {
            alloc,
            shelf: MemoryShelf::new(alloc),
            calls: Vec::new(alloc),
            unsettled: Vec::new(alloc),
        }
    }

    /// Lists a call that is to fail: the nth of its kind among those that begin from now on, counted from 1. After want of
    /// memory nothing is changed.
    pub fn fail_on(&mut self, call: ShelfCall, nth: u32) -> Result<(), Oom>
        ensures ok { OnOk result (self.new ≡ record self.old { listed = self.old.listed ++ record { call = call; nth = nth } ∷ [] }) }
        ensures err { OnErr result (self.new ≡ self.old) }
    {
        self.shelf.fail_on(call, nth)
    }

    /// How many calls of make, append, sync and rename were served. A sync that failed, or of a name that was settled
    /// already, isn't counted, nor is a call that wanted memory.
    pub fn calls(&self) -> u32
        ensures { result ≡ length self.now.calls }
    {
        self.calls.len() as u32
    }

    /// A shelf that holds what a crash may leave after so many of the calls. Of an unsettled name that is held then it has
    /// the first half of its bytes, where `torn` is true; otherwise every unsettled name is absent.
    pub fn leftover(&self, alloc: Global, calls: u32, torn: bool) -> Result<QuietShelf, Oom>
        requires { calls ≤ length self.now.calls }
        ensures allowed { IfOk result (λ shelf. MayLeaveAfter (take calls self.now.calls) shelf.files) }
        ensures torn { IfOk result (λ shelf. (name : List ℕ) → IsTrue (is_among name (unsettled_after (take calls self.now.calls))) → get shelf.files name ≡ (if torn then option_map first_half (get (files_after (take calls self.now.calls)) name) else None)) }
    {
        let mut unsettled = Vec::new(alloc);
        let mut files = redo_all(alloc, &self.calls[..calls as usize], &mut unsettled)?;
        tear_all(alloc, &mut files, &unsettled, torn)?;
        Ok(QuietShelf::holding(files))
    }
}

impl Shelf for CrashShelf {
    ghost held = { λ s. Some (files_after s.calls) };

    ghost faults = { λ s. count_of s.faults };

    ghost taken = { λ s. s.taken };

    ghost crashes = { λ s. Foretold (crashes_of s.calls) };

    fn size(&mut self, name: &str) -> Result<Option<u64>, Fault> {
        self.shelf.size(name)
    }

    fn read_at(&mut self, name: &str, at: u64, buf: &mut [u8]) -> Result<(), Fault> {
        self.shelf.read_at(name, at, buf)
    }

    fn make(&mut self, name: &str) -> Result<(), ShelfFail> {
        let Ok(names) = ready(self.alloc, &mut self.calls, &mut self.unsettled, name) else {
            return Err(ShelfFail::Oom);
        };
        match self.shelf.make(name) {
            Ok(()) => {
                let call = Served::Make {
                    name: names.written,
                    done: true,
                };
                keep_call(&mut self.calls, &mut self.unsettled, call, names.entry);
                Ok(())
            }
            Err(ShelfFail::Failed) => {
                let call = Served::Make {
                    name: names.written,
                    done: false,
                };
                keep_call(&mut self.calls, &mut self.unsettled, call, names.entry);
                Err(ShelfFail::Failed)
            }
            Err(ShelfFail::Oom) => Err(ShelfFail::Oom),
        }
    }

    fn append(&mut self, name: &str, bytes: &[u8]) -> Result<(), ShelfFail> {
        let Ok(added) = Bytes::copy(self.alloc, bytes) else {
            return Err(ShelfFail::Oom);
        };
        let Ok(names) = ready(self.alloc, &mut self.calls, &mut self.unsettled, name) else {
            return Err(ShelfFail::Oom);
        };
        match self.shelf.append(name, bytes) {
            Ok(()) => {
                let call = Served::Append {
                    name: names.written,
                    bytes: added,
                };
                keep_call(&mut self.calls, &mut self.unsettled, call, names.entry);
                Ok(())
            }
            Err(ShelfFail::Failed) => {
                let call = Served::Append {
                    name: names.written,
                    bytes: added.first_half(),
                };
                keep_call(&mut self.calls, &mut self.unsettled, call, names.entry);
                Err(ShelfFail::Failed)
            }
            Err(ShelfFail::Oom) => Err(ShelfFail::Oom),
        }
    }

    fn sync(&mut self, name: &str) -> Result<(), Fault> {
        self.shelf.sync(name)?;
        if let Some(settled) = take_name(&mut self.unsettled, name) {
            add_call(&mut self.calls, Served::Sync { name: settled });
        }
        Ok(())
    }

    fn rename(&mut self, from: &str, to: &str) -> Result<(), ShelfFail> {
        let Ok(old_name) = Name::copied(self.alloc, from) else {
            return Err(ShelfFail::Oom);
        };
        let Ok(names) = ready(self.alloc, &mut self.calls, &mut self.unsettled, to) else {
            return Err(ShelfFail::Oom);
        };
        match self.shelf.rename(from, to) {
            Ok(()) => {
                let call = Served::Rename {
                    from: old_name,
                    to: names.written,
                    done: true,
                };
                keep_call(&mut self.calls, &mut self.unsettled, call, names.entry);
                Ok(())
            }
            Err(ShelfFail::Failed) => {
                let call = Served::Rename {
                    from: old_name,
                    to: names.written,
                    done: false,
                };
                keep_call(&mut self.calls, &mut self.unsettled, call, names.entry);
                Err(ShelfFail::Failed)
            }
            Err(ShelfFail::Oom) => Err(ShelfFail::Oom),
        }
    }

    ghost use Rattle.std.specs.Prelude.{refl};

    ghost tells_held = { λ _. refl };
}

impl Folder for CrashShelf {
    fn list(&mut self, alloc: Global, folder: &str) -> Result<Names, ShelfFail> {
        self.shelf.list(alloc, folder)
    }

    #[tactic(auto, using(rip_outside::proofs::CrashLaws::told_rests))]
    fn forget(&mut self) {}
}
