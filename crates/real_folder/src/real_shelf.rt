// Real files.
ghost use Rattle.std.specs.Prelude.{◌≡◌, ◌↔◌, ℕ, List, All, None, true, IsTrue, OnOk, OnErr, IfOk, IsOk, Ok, IsErr, IsErrOf, IsSome, IfSome, is_none};
ghost use Rattle.std.specs.Option.{IsSomeAnd};
ghost use Rattle.std.specs.Ordering.{nat_cmp};
ghost use Rattle.std.specs.Cmp.Lexicographic.{slice_cmp};
ghost use Rattle.std.specs.List.Sorted.{IsStrictlySortedBy};
ghost use Rattle.std.specs.String.{string_bytes};
ghost use Rattle.rip_outside.specs.Causes.{HasCause};
ghost use Rattle.rip_outside.specs.Crashes.Outlook.{Untold};
ghost use Rattle.rip_outside.specs.Counts.{count_of};
ghost use Rattle.rip_outside.specs.Listing.{stands_in};

use crate::folder::{list_files, size_of};
use crate::known_names::KnownNames;
use crate::reading::{Reading, see_as_it_was};
use crate::words::print_failure;
use crate::writing::{Writing, sync_names};
use rip_outside::{Counts, Fault, Folder, Names, Shelf, ShelfCall, ShelfFail};
use std::alloc::Global;
use std::fs::File;
use std::io::{self, Eprint, ErrorKind};
use std::rt::Files;

/// The files that a runtime reaches, whose bytes aren't told. A name is a path. Each call that
/// fails is counted by its kind, and told in a line of standard error.
#[derive(Drop)]
pub struct RealShelf<'a, R: Files<File = File> + Eprint> {
    rt: &'a R,
    alloc: Global,
    faults: Counts,
    taken: u128,
    known: KnownNames,
    reading: Option<Reading>,
    writing: Option<Writing>,
}

impl<'a, R: Files<File = File> + Eprint + AllocGlobal> RealShelf<'a, R> {
    ghost use Rattle.real_folder.specs.KnownNames.{known_at, nothing};

    /// Nothing has failed yet, no bytes were handed out, and nothing is known of any name. It takes no memory.
    pub fn new(rt: &'a R) -> Self
        ensures faults { (call : _) → count_of result.faults call ≡ 0 }
        ensures taken { result.taken ≡ 0 }
        ensures known { (name : List ℕ) → known_at result.known name ≡ nothing }
    {
        let alloc = rt.alloc();
        RealShelf {
            rt,
            alloc,
            faults: Counts::new(),
            taken: 0,
            known: KnownNames::new(alloc),
            reading: None,
            writing: None,
        }
    }
}

impl<R: Files<File = File> + Eprint> RealShelf<'_, R> {
    ghost use Rattle.real_folder.specs.FileState.{IsAsItWas};
    ghost use Rattle.real_folder.specs.KnownNames.{known_at, nothing, first_read, IsMissing};

    // What a call on a name did, which is counted and told where it failed.
    fn counted<T>(&mut self, call: ShelfCall, name: &str, done: io::Result<T>) -> Result<T, Fault>
        ensures value { IfOk result (λ value. done ≡ Ok value) }
        ensures known { self.new.known ≡ self.old.known }
        ensures cause { HasCause call (count_of self.old.faults) (count_of self.new.faults) (IsErr result) }
        ensures taken { self.new.taken ≡ self.old.taken }
    {
        match done {
            Ok(value) => Ok(value),
            Err(error) => {
                print_failure(self.rt, self.alloc, name, &error);
                self.faults.raise(call);
                Err(Fault)
            }
        }
    }

    // The same where want of memory, which has changed nothing, is told apart.
    fn counted_or_oom<T>(
        &mut self,
        call: ShelfCall,
        name: &str,
        done: io::Result<T>,
    ) -> Result<T, ShelfFail>
        ensures value { IfOk result (λ value. done ≡ Ok value) }
        ensures done { IsOk result ↔ IsOk done }
        ensures known { self.new.known ≡ self.old.known }
        ensures cause { HasCause call (count_of self.old.faults) (count_of self.new.faults) (IsErrOf result ShelfFail.Failed) }
        ensures taken { self.new.taken ≡ self.old.taken }
    {
        match done {
            Ok(value) => Ok(value),
            Err(error) if error.kind() == ErrorKind::OutOfMemory => Err(ShelfFail::Oom),
            Err(error) => {
                print_failure(self.rt, self.alloc, name, &error);
                self.faults.raise(call);
                Err(ShelfFail::Failed)
            }
        }
    }

    // Asks for the length of a file, and learns whether a file has the name.
    fn look(&mut self, name: &str) -> io::Result<Option<u64>>
        ensures told { IfOk result (λ size. (known_at self.new.known name.now).is_missing ≡ is_none size) }
        ensures faults { self.new.faults ≡ self.old.faults }
        ensures taken { self.new.taken ≡ self.old.taken }
    {
        let size = size_of(self.rt, name)?;
        let is_missing = size.is_none();
        if is_missing != self.known.known(name).is_missing {
            self.known.tell(name, is_missing)?;
        }
        Ok(size)
    }

    // Sees that the file that was read last is as it was, and lets it go.
    fn leave(&mut self) -> io::Result<()>
        ensures left { self.new.reading ≡ None }
        ensures writing { self.new.writing ≡ self.old.writing }
        ensures known { self.new.known ≡ self.old.known }
        ensures faults { self.new.faults ≡ self.old.faults }
        ensures taken { self.new.taken ≡ self.old.taken }
    {
        if let Some(reading) = self.reading.take() {
            if reading.see_unchanged().is_err() {
                return Err(io::Error::other("The file read before it has changed since"));
            }
        }
        Ok(())
    }

    // Opens a file to be read, which has to be as it was when this run first read it.
    fn open(&mut self, name: &str) -> io::Result<()>
        ensures name { OnOk result (IsSomeAnd self.new.reading (λ reading. string_bytes reading.name ≡ name.now)) }
        ensures first { OnOk result (IsSome (first_read self.new.known name.now)) }
        ensures as_it_was { OnOk result (IfSome (first_read self.old.known name.now) (λ first. IfSome self.new.reading (λ reading. IsAsItWas first reading.first))) }
        ensures stays { IsSome (first_read self.old.known name.now) → self.new.known ≡ self.old.known }
        ensures faults { self.new.faults ≡ self.old.faults }
        ensures taken { self.new.taken ≡ self.old.taken }
    {
        self.leave()?;
        let reading = Reading::open(self.rt, self.alloc, name)?;
        match self.known.known(name).first {
            Some(first) => see_as_it_was(&first, &reading.first())?,
            None => self.known.tell_read(name, reading.first())?,
        }
        self.reading = Some(reading);
        Ok(())
    }

    // Fills the buffer from a place of a file on, by the handle that is kept where the name is the same.
    fn fill(&mut self, name: &str, at: u64, buf: &mut [u8]) -> io::Result<()>
        ensures faults { self.new.faults ≡ self.old.faults }
        ensures taken { self.new.taken ≡ self.old.taken }
    {
        let is_open = match &self.reading {
            Some(reading) => reading.is_of(name),
            None => false,
        };
        if !is_open {
            self.open(name)?;
        }
        match &mut self.reading {
            Some(reading) => reading.fill(at, buf),
            None => Err(io::Error::from(ErrorKind::NotFound)),
        }
    }

    // Makes a file to be written.
    fn begin(&mut self, name: &str) -> io::Result<()>
        ensures begun { OnOk result (IsSomeAnd self.new.writing (λ writing. string_bytes writing.name ≡ name.now)) }
        ensures failed { OnErr result (self.new.writing ≡ None) }
        ensures faults { self.new.faults ≡ self.old.faults }
        ensures taken { self.new.taken ≡ self.old.taken }
    {
        // The lock of an earlier file is let go first, since it may be this one's.
        self.writing = None;
        self.writing = Some(Writing::make(self.rt, self.alloc, &self.known, name)?);
        Ok(())
    }

    // Whether a file that has the name may be replaced: not where this run was told that none has it.
    fn may_replace(&self, name: &str) -> bool
        ensures { IsTrue result ↔ (IsMissing name.now self.now.known → ⊥) }
    {
        !self.known.known(name).is_missing
    }

    // Gives the file that is being written its name. Before, the file that is being read has to be as it was.
    fn give_name(&mut self, from: &str, to: &str) -> io::Result<()>
        ensures written { OnOk result (IsSomeAnd self.old.writing (λ writing. string_bytes writing.name ≡ from.now)) }
        ensures given { OnOk result (self.new.writing ≡ None) }
        ensures forgotten { OnOk result (known_at self.new.known to.now ≡ nothing) }
        ensures faults { self.new.faults ≡ self.old.faults }
        ensures taken { self.new.taken ≡ self.old.taken }
    {
        self.leave()?;
        let may_replace = self.may_replace(to);
        match &self.writing {
            Some(writing) => writing.rename(self.rt, from, to, may_replace)?,
            None => return Err(not_made()),
        }
        self.writing = None;
        self.known.forget(from);
        self.known.forget(to);
        sync_names(self.rt, from, to)
    }
}

// What is told where a file is written that this run hasn't made.
fn not_made() -> io::Error {
    io::Error::other("This run hasn't made this file")
}

impl<R: Files<File = File> + Eprint> Shelf for RealShelf<'_, R> {
    ghost use Rattle.rip_outside.specs.Files.{Becomes, MayBecome, after_rename};
    ghost use Rattle.real_folder.specs.KnownNames.{known_at, nothing};

    ghost held = { λ _. None };

    ghost faults = { λ shelf. count_of shelf.faults };

    ghost taken = { λ shelf. shelf.taken };

    ghost crashes = { λ _. Untold };

    fn size(&mut self, name: &str) -> Result<Option<u64>, Fault>
        ensures told { IfOk result (λ size. (known_at self.new.known name.now).is_missing ≡ is_none size) }
        ensures cause { HasCause ShelfCall.Size (count_of self.old.faults) (count_of self.new.faults) (IsErr result) }
        ensures taken { self.new.taken ≡ self.old.taken }
    {
        let size = self.look(name);
        self.counted(ShelfCall::Size, name, size)
    }

    fn read_at(&mut self, name: &str, at: u64, buf: &mut [u8]) -> Result<(), Fault> {
        let filled = self.fill(name, at, buf);
        self.counted(ShelfCall::ReadAt, name, filled)?;
        self.taken = self.taken.saturating_add(buf.len() as u128);
        Ok(())
    }

    fn make(&mut self, name: &str) -> Result<(), ShelfFail> {
        let made = self.begin(name);
        self.counted_or_oom(ShelfCall::Make, name, made)
    }

    fn append(&mut self, name: &str, bytes: &[u8]) -> Result<(), ShelfFail> {
        let added = match &mut self.writing {
            Some(writing) => writing.append(name, bytes),
            None => Err(not_made()),
        };
        self.counted_or_oom(ShelfCall::Append, name, added)
    }

    fn sync(&mut self, name: &str) -> Result<(), Fault> {
        let synced = match &self.writing {
            Some(writing) => writing.sync(self.rt, name),
            None => Err(not_made()),
        };
        self.counted(ShelfCall::Sync, name, synced)
    }

    fn rename(&mut self, from: &str, to: &str) -> Result<(), ShelfFail>
        ensures written { OnOk result (IsSomeAnd self.old.writing (λ writing. string_bytes writing.name ≡ from.now)) }
        ensures forgotten { OnOk result (known_at self.new.known to.now ≡ nothing) }
        ensures renamed { OnOk result (Becomes (after_rename from.now to.now) None None) }
        ensures failed { IsErrOf result ShelfFail.Failed → MayBecome (after_rename from.now to.now) None None }
        ensures cause { HasCause ShelfCall.Rename (count_of self.old.faults) (count_of self.new.faults) (IsErrOf result ShelfFail.Failed) }
        ensures taken { self.new.taken ≡ self.old.taken }
    {
        let given = self.give_name(from, to);
        self.counted_or_oom(ShelfCall::Rename, to, given)
    }

    ghost tells_held = { λ _. tt };
}

impl<R: Files<File = File> + Eprint + AllocGlobal> Folder for RealShelf<'_, R> {
    ghost use Rattle.real_folder.specs.KnownNames.{known_at, nothing};

    fn list(&mut self, alloc: Global, folder: &str) -> Result<Names, ShelfFail>
        ensures inside { IfOk result (λ names. All (λ name. stands_in folder.now name ≡ true) names) }
        ensures ordered { IfOk result (λ names. IsStrictlySortedBy (slice_cmp nat_cmp) names) }
        ensures known { self.new.known ≡ self.old.known }
        ensures cause { HasCause ShelfCall.List (count_of self.old.faults) (count_of self.new.faults) (IsErrOf result ShelfFail.Failed) }
        ensures taken { self.new.taken ≡ self.old.taken }
    {
        let names = list_files(self.rt, alloc, folder);
        self.counted_or_oom(ShelfCall::List, folder, names)
    }

    // The lock of a file that was begun is let go too.
    fn forget(&mut self)
        ensures known { (name : List ℕ) → known_at self.new.known name ≡ nothing }
        ensures reading { self.new.reading ≡ None }
        ensures writing { self.new.writing ≡ None }
        ensures faults { self.new.faults ≡ self.old.faults }
        ensures taken { self.new.taken ≡ self.old.taken }
    {
        self.known = KnownNames::new(self.alloc);
        self.reading = None;
        self.writing = None;
    }
}
