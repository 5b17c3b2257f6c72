// Named files in memory.
ghost use Rattle.std.specs.Prelude.{◌≡◌, ◌≢◌, ◌+◌, ◌≤◌, length, slice_range, IfOk, OnOk, OnErr};
ghost use Rattle.std.specs.Option.{option_copied, option_map};
ghost use Rattle.std.specs.FinMap.{get, empty, remove};
ghost use Rattle.rip_outside.specs.Files.{IsHeld, bytes_at, after_make, after_append, after_rename};
ghost use Rattle.rip_outside.specs.Listing.{is_own_name, names_in, stands_in};

use rip_outside::{Name, Names, Oom};
use std::alloc::{AllocError, Global};
use std::collections::BTreeMap;
use std::marker::Model;

/// Named files in memory, seen as the map from their names to their bytes.
#[derive(Drop)]
pub struct FileTable {
    alloc: Global,
    files: BTreeMap<String, Vec<u8>>,
}

impl Model for FileTable {
    ghost use Rattle.rip_outside.specs.Files.{Files, files_code};
    ghost use Rattle.rip_memory.specs.FileTable.{files_in};

    ghost Value = { Files };

    ghost coded = { files_code };

    ghost view = { λ table. files_in table.files.entries };
}

// Fills the buffer with the bytes from a place on.
fn copy_part(bytes: &[u8], from: usize, buf: &mut [u8])
    requires { from + length buf.old ≤ length bytes.now }
    ensures { buf.new ≡ slice_range bytes.now from (from + length buf.old) }
{
    let end = from + buf.len();
    buf.copy_from_slice(&bytes[from..end]);
}

// A file's own name has at least one byte, and no `/`.
fn is_own_name(name: &[u8]) -> bool
    ensures { result ≡ is_own_name name.now }
{
    !name.is_empty() && !name.contains(&b'/')
}

// Whether a name stands directly in a folder.
fn stands_in(folder: &[u8], name: &[u8]) -> bool
    ensures { result ≡ stands_in folder.now name.now }
{
    name.starts_with(folder) && is_own_name(&name[folder.len()..])
}

impl FileTable {
    /// No files. It takes no memory.
    pub fn new(alloc: Global) -> Self
        ensures { result ≡ empty }
    {
        FileTable {
            alloc,
            files: BTreeMap::new(alloc),
        }
    }

    /// The length of a file in bytes, or None where there is none of this name.
    pub fn size(&self, name: &str) -> Option<u64>
        ensures { result ≡ option_map length (get self.now name.now) }
    {
        self.files.get(name).map(|bytes| bytes.len() as u64)
    }

    /// The bytes of a file, or None where there is none of this name.
    pub fn bytes(&self, name: &str) -> Option<&[u8]>
        ensures { option_copied result ≡ get self.now name.now }
    {
        match self.files.get(name) {
            Some(bytes) => Some(bytes.as_slice()),
            None => None,
        }
    }

    /// Fills the buffer with the file's bytes from a place on.
    pub fn read_at(&self, name: &str, at: u64, buf: &mut [u8])
        requires { at + length buf.old ≤ length (bytes_at name.now self.now) }
        ensures { buf.new ≡ slice_range (bytes_at name.now self.now) at (at + length buf.old) }
    {
        if let Some(bytes) = self.files.get(name) {
            copy_part(bytes, at as usize, buf);
        }
    }

    /// The names that stand directly in a folder, in the order of their bytes.
    pub fn names_in(&self, alloc: Global, folder: &str) -> Result<Names, Oom>
        ensures { IfOk result (λ names. names ≡ names_in folder.now self.now) }
    {
        let mut names = Vec::new(alloc);
        for name in self.files.keys() {
            if stands_in(folder.as_bytes(), name.as_bytes()) {
                names.push(Name::copied(alloc, name.as_str())?)?;
            }
        }
        Ok(Names::of(names))
    }

    /// Makes a file hold no bytes. After want of memory nothing is changed.
    pub fn make(&mut self, name: &str) -> Result<(), AllocError>
        ensures ok { OnOk result (self.new ≡ after_make name.now self.old) }
        ensures err { OnErr result (self.new ≡ self.old) }
    {
        let key = String::from_str(self.alloc, name)?;
        self.files.insert(key, Vec::new(self.alloc))?;
        Ok(())
    }

    /// Adds bytes at the end of a file. After want of memory nothing is changed.
    pub fn append(&mut self, name: &str, bytes: &[u8]) -> Result<(), AllocError>
        requires { IsHeld name.now self.old }
        ensures ok { OnOk result (self.new ≡ after_append name.now bytes.now self.old) }
        ensures err { OnErr result (self.new ≡ self.old) }
    {
        if let Some(file) = self.files.get_mut(name) {
            file.extend_from_slice(bytes)?;
        }
        Ok(())
    }

    /// Takes a file away.
    pub fn remove(&mut self, name: &str)
        ensures { self.new ≡ remove self.old name.now }
    {
        self.files.remove(name);
    }

    /// Gives a file another name. After want of memory nothing is changed.
    pub fn rename(&mut self, from: &str, to: &str) -> Result<(), AllocError>
        requires held { IsHeld from.now self.old }
        requires differ { from.now ≢ to.now }
        ensures ok { OnOk result (self.new ≡ after_rename from.now to.now self.old) }
        ensures err { OnErr result (self.new ≡ self.old) }
    {
        let key = String::from_str(self.alloc, to)?;
        // The place is made first, since nothing may fail once the file has left its name.
        self.files.insert(key, Vec::new(self.alloc))?;
        if let Some(file) = self.files.remove(from) {
            if let Some(place) = self.files.get_mut(to) {
                *place = file;
            }
        }
        Ok(())
    }
}
