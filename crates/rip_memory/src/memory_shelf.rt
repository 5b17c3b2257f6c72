// A shelf in memory, whose calls fail where they were listed to fail.
ghost use Rattle.std.specs.Prelude.{◌≡◌, ◌≢◌, ◌+◌, ◌↔◌, ◌≤◌, ◌++◌, ◌∷◌, [], ℕ, length, true, false, slice_range, All, IsTrue, IfOk, OnOk, OnErr, IsErr, IsErrOf, Some, if◌then◌else◌};
ghost use Rattle.std.specs.FinMap.{empty, get};
ghost use Rattle.std.specs.Option.{option_copied, option_map};
ghost use Rattle.rip_outside.specs.Counts.{count_of, raised};
ghost use Rattle.rip_outside.specs.Causes.{HasCause};
ghost use Rattle.rip_memory.specs.Listed.{is_due, counted_down};
ghost use Rattle.rip_memory.specs.Filling.{first_half};
ghost use Rattle.rip_outside.specs.Files.{AppendsPrefix, IsHeld, bytes_at, after_make, after_append, after_rename};
ghost use Rattle.rip_outside.specs.Listing.{names_in, stands_in};
ghost use Rattle.rip_outside.specs.Crashes.Outlook.{Untold};

use crate::file_table::FileTable;
use crate::listed::{Listed, count_down};
use rip_outside::{Counts, Fault, Folder, Names, Oom, Shelf, ShelfCall, ShelfFail};
use std::alloc::Global;
use std::marker::Model;

/// A shelf in memory. Below its last value a count rises exactly in a listed call, and no other call fails.
#[derive(Drop)]
pub struct MemoryShelf {
    files: FileTable,
    faults: Counts,
    taken: u128,
    listed: Vec<Listed>,
}

impl Model for MemoryShelf {
    ghost use Rattle.std.specs.Coded.{codes};
    ghost use Rattle.rip_outside.specs.Files.{files_code};
    ghost use Rattle.rip_memory.specs.MemoryFiles.{MemoryFiles};

    ghost Value = { MemoryFiles };

    ghost coded = { Prim.hlevel (codes, files_code) };

    ghost view = { λ s. record { files = s.files; faults = s.faults; taken = s.taken; listed = s.listed.items } };
}

// Counts a call of this kind, and answers whether it is to fail.
fn begin(faults: &mut Counts, listed: &mut [Listed], call: ShelfCall) -> bool
    ensures due { result ≡ is_due call listed.old }
    ensures listed { listed.new ≡ counted_down call listed.old }
    ensures faults { faults.new ≡ (if is_due call listed.old then raised call faults.old else faults.old) }
    ensures cause { HasCause call (count_of faults.old) (count_of faults.new) (IsTrue result) }
{
    let due = count_down(listed, call);
    if due {
        faults.raise(call);
    }
    due
}

// What a listed append does: the first half of the bytes is added, and the call fails.
fn append_half(files: &mut FileTable, name: &str, bytes: &[u8]) -> Result<(), ShelfFail>
    requires { IsHeld name.now files.old }
    ensures failed { IsErrOf result ShelfFail.Failed → files.new ≡ after_append name.now (first_half bytes.now) files.old }
    ensures oom { IsErrOf result ShelfFail.Oom → files.new ≡ files.old }
    ensures fails { IsErr result }
    ensures part { AppendsPrefix name.now bytes.now (Some files.old) (Some files.new) }
{
    match files.append(name, &bytes[..bytes.len() / 2]) {
        Ok(()) => Err(ShelfFail::Failed),
        Err(_) => Err(ShelfFail::Oom),
    }
}

impl MemoryShelf {
    ghost use Rattle.rip_memory.specs.declared.listed.Listed.{Listed};

    /// It holds nothing, no call is to fail, and all counts are 0.
    pub fn new(alloc: Global) -> Self
        ensures files { result.files ≡ empty }
        ensures faults { (call : _) → count_of result.faults call ≡ 0 }
        ensures taken { result.taken ≡ 0 }
        ensures listed { result.listed ≡ [] }
    {
        MemoryShelf {
            files: FileTable::new(alloc),
            faults: Counts::new(),
            taken: 0,
            listed: Vec::new(alloc),
        }
    }

    /// Lists a call that is to fail: the nth of its kind among those that begin from now on, counted from 1. After want of
    /// memory nothing is changed.
    pub fn fail_on(&mut self, call: ShelfCall, nth: u32) -> Result<(), Oom>
        ensures ok { OnOk result (self.new ≡ record self.old { listed = self.old.listed ++ record { call = call; nth = nth } ∷ [] }) }
        ensures err { OnErr result (self.new ≡ self.old) }
    {
        match self.listed.push(Listed { call, nth }) {
            Ok(()) => Ok(()),
            Err(_) => Err(Oom),
        }
    }

    /// The bytes of a file, or None exactly where the name isn't held. It is no call of the shelf, and counts nothing.
    pub fn bytes(&self, name: &str) -> Option<&[u8]>
        ensures { option_copied result ≡ get self.now.files name.now }
    {
        self.files.bytes(name)
    }

    /// How many bytes were handed out so far. It takes no memory.
    pub fn taken_so_far(&self) -> u128
        ensures { result ≡ self.now.taken }
    {
        self.taken
    }
}

impl Shelf for MemoryShelf {
    ghost use Rattle.rip_memory.specs.MemoryFiles.{call_begun, taken_after};

    ghost held = { λ s. Some s.files };

    ghost faults = { λ s. count_of s.faults };

    ghost taken = { λ s. s.taken };

    ghost crashes = { λ _. Untold };

    fn size(&mut self, name: &str) -> Result<Option<u64>, Fault>
        ensures value { IfOk result (λ size. size ≡ option_map length (get self.old.files name.now)) }
        ensures listed { IsErr result ↔ IsTrue (is_due ShelfCall.Size self.old.listed) }
        ensures after { self.new ≡ call_begun ShelfCall.Size self.old }
        ensures cause { HasCause ShelfCall.Size (count_of self.old.faults) (count_of self.new.faults) (IsErr result) }
    {
        if begin(&mut self.faults, &mut self.listed, ShelfCall::Size) {
            return Err(Fault);
        }
        Ok(self.files.size(name))
    }

    fn read_at(&mut self, name: &str, at: u64, buf: &mut [u8]) -> Result<(), Fault>
        requires { at + length buf.old ≤ length (bytes_at name.now self.old.files) }
        ensures ok { OnOk result (self.new ≡ record (call_begun ShelfCall.ReadAt self.old) { taken = taken_after self.old.taken (length buf.old) }) }
        ensures bytes { OnOk result (buf.new ≡ slice_range (bytes_at name.now self.old.files) at (at + length buf.old)) }
        ensures err { OnErr result (self.new ≡ call_begun ShelfCall.ReadAt self.old) }
        ensures listed { IsErr result ↔ IsTrue (is_due ShelfCall.ReadAt self.old.listed) }
        ensures cause { HasCause ShelfCall.ReadAt (count_of self.old.faults) (count_of self.new.faults) (IsErr result) }
        ensures more { self.old.taken ≤ self.new.taken }
    {
        if begin(&mut self.faults, &mut self.listed, ShelfCall::ReadAt) {
            return Err(Fault);
        }
        self.files.read_at(name, at, buf);
        self.taken = self.taken.saturating_add(buf.len() as u128);
        Ok(())
    }

    fn make(&mut self, name: &str) -> Result<(), ShelfFail>
        ensures ok { OnOk result (self.new ≡ record (call_begun ShelfCall.Make self.old) { files = after_make name.now self.old.files }) }
        ensures err { OnErr result (self.new ≡ call_begun ShelfCall.Make self.old) }
        ensures listed { IsErrOf result ShelfFail.Failed ↔ IsTrue (is_due ShelfCall.Make self.old.listed) }
        ensures cause { HasCause ShelfCall.Make (count_of self.old.faults) (count_of self.new.faults) (IsErrOf result ShelfFail.Failed) }
    {
        if begin(&mut self.faults, &mut self.listed, ShelfCall::Make) {
            return Err(ShelfFail::Failed);
        }
        self.files.make(name).map_err(|_| ShelfFail::Oom)
    }

    fn append(&mut self, name: &str, bytes: &[u8]) -> Result<(), ShelfFail>
        requires { IsHeld name.now self.old.files }
        ensures ok { OnOk result (self.new ≡ record (call_begun ShelfCall.Append self.old) { files = after_append name.now bytes.now self.old.files }) }
        ensures failed { IsErrOf result ShelfFail.Failed → self.new ≡ record (call_begun ShelfCall.Append self.old) { files = after_append name.now (first_half bytes.now) self.old.files } }
        ensures oom { IsErrOf result ShelfFail.Oom → self.new ≡ call_begun ShelfCall.Append self.old }
        ensures listed { IsErrOf result ShelfFail.Failed → IsTrue (is_due ShelfCall.Append self.old.listed) }
        ensures unlisted { OnOk result (is_due ShelfCall.Append self.old.listed ≡ false) }
        ensures cause { HasCause ShelfCall.Append (count_of self.old.faults) (count_of self.new.faults) (IsErrOf result ShelfFail.Failed) }
        ensures part { AppendsPrefix name.now bytes.now (Some self.old.files) (Some self.new.files) }
    {
        if begin(&mut self.faults, &mut self.listed, ShelfCall::Append) {
            return append_half(&mut self.files, name, bytes);
        }
        self.files.append(name, bytes).map_err(|_| ShelfFail::Oom)
    }

    fn sync(&mut self, _name: &str) -> Result<(), Fault>
        ensures after { self.new ≡ call_begun ShelfCall.Sync self.old }
        ensures listed { IsErr result ↔ IsTrue (is_due ShelfCall.Sync self.old.listed) }
        ensures cause { HasCause ShelfCall.Sync (count_of self.old.faults) (count_of self.new.faults) (IsErr result) }
    {
        if begin(&mut self.faults, &mut self.listed, ShelfCall::Sync) {
            return Err(Fault);
        }
        Ok(())
    }

    fn rename(&mut self, from: &str, to: &str) -> Result<(), ShelfFail>
        requires held { IsHeld from.now self.old.files }
        requires differ { from.now ≢ to.now }
        ensures ok { OnOk result (self.new ≡ record (call_begun ShelfCall.Rename self.old) { files = after_rename from.now to.now self.old.files }) }
        ensures err { OnErr result (self.new ≡ call_begun ShelfCall.Rename self.old) }
        ensures listed { IsErrOf result ShelfFail.Failed ↔ IsTrue (is_due ShelfCall.Rename self.old.listed) }
        ensures cause { HasCause ShelfCall.Rename (count_of self.old.faults) (count_of self.new.faults) (IsErrOf result ShelfFail.Failed) }
    {
        if begin(&mut self.faults, &mut self.listed, ShelfCall::Rename) {
            return Err(ShelfFail::Failed);
        }
        self.files.rename(from, to).map_err(|_| ShelfFail::Oom)
    }

    ghost tells_held = { λ _. tt };
}

impl Folder for MemoryShelf {
    ghost use Rattle.rip_memory.specs.MemoryFiles.{call_begun};

    fn list(&mut self, alloc: Global, folder: &str) -> Result<Names, ShelfFail>
        ensures inside { IfOk result (λ names. All (λ name. stands_in folder.now name ≡ true) names) }
        ensures names { IfOk result (λ names. names ≡ names_in folder.now self.old.files) }
        ensures listed { IsErrOf result ShelfFail.Failed ↔ IsTrue (is_due ShelfCall.List self.old.listed) }
        ensures after { self.new ≡ call_begun ShelfCall.List self.old }
        ensures cause { HasCause ShelfCall.List (count_of self.old.faults) (count_of self.new.faults) (IsErrOf result ShelfFail.Failed) }
    {
        if begin(&mut self.faults, &mut self.listed, ShelfCall::List) {
            return Err(ShelfFail::Failed);
        }
        self.files
            .names_in(alloc, folder)
            .map_err(|_| ShelfFail::Oom)
    }

    fn forget(&mut self)
        ensures after { self.new ≡ self.old }
    {}
}
