// A file that is being read.
ghost use Rattle.std.specs.Prelude.{◌≡◌, ◌↔◌, IsTrue, IsOk, IfOk};
ghost use Rattle.std.specs.String.{string_bytes};
ghost use Rattle.real_folder.specs.FileState.{IsAsItWas};

use crate::file_state::FileState;
use std::alloc::Global;
use std::fs::{self, File};
use std::io::{self, ErrorKind};
use std::os::unix::fs::FileExt;
use std::rt::Files;

/// A file that is being read. Its handle is kept for as long as its name is asked for.
#[derive(Drop)]
pub struct Reading {
    name: String,
    file: File,
    first: FileState,
    /// The place after the bytes that were read last, and how many these were.
    next: u64,
    piece: usize,
}

// Opens a plain file: what else has the name may answer never, or do something when it is opened.
fn open_plain<R: Files<File = File>>(rt: &R, name: &str) -> io::Result<File> {
    let found = fs::metadata(rt, name)?;
    if found.is_dir() {
        return Err(io::Error::new(ErrorKind::IsADirectory, "Is a directory"));
    }
    if !found.is_file() {
        return Err(io::Error::other("Not a plain file"));
    }
    File::open(rt, name)
}

/// Fails where a later look didn't find the file as it was.
pub fn see_as_it_was(first: &FileState, later: &FileState) -> io::Result<()>
    ensures { IsOk result ↔ IsAsItWas first.now later.now }
{
    if first.is_as_it_was(later) {
        Ok(())
    } else {
        Err(io::Error::other("Changed while it was read"))
    }
}

impl Reading {
    /// Opens a file to be read.
    pub fn open<R: Files<File = File>>(rt: &R, alloc: Global, name: &str) -> io::Result<Reading>
        ensures { IfOk result (λ reading. string_bytes reading.name ≡ name.now) }
    {
        let file = open_plain(rt, name)?;
        let first = FileState::of(&file.metadata()?);
        Ok(Reading {
            name: String::from_str(alloc, name)?,
            file,
            first,
            next: 0,
            piece: 0,
        })
    }

    /// Whether this file has this name.
    pub fn is_of(&self, name: &str) -> bool
        ensures { IsTrue result ↔ string_bytes self.now.name ≡ name.now }
    {
        self.name.as_str() == name
    }

    /// How the file was when it was opened.
    pub fn first(&self) -> FileState
        ensures { result ≡ self.now.first }
    {
        self.first
    }

    /// Fails where the file isn't as it was when it was opened.
    pub fn see_unchanged(&self) -> io::Result<()> {
        see_as_it_was(&self.first, &FileState::of(&self.file.metadata()?))
    }

    /// Fills the whole buffer with the file's bytes from a place on, which is a failure where the file ends before. It
    /// looks whether the file is as it was at the first read of a pass, at its last, which mostly is a shorter one, and
    /// at one that reaches the file's end.
    pub fn fill(&mut self, at: u64, buf: &mut [u8]) -> io::Result<()>
        ensures name { self.new.name ≡ self.old.name }
        ensures first { self.new.first ≡ self.old.first }
    {
        let goes_on = at == self.next && buf.len() == self.piece;
        match self.file.read_exact_at(buf, at) {
            Ok(()) => {}
            Err(error) if error.kind() == ErrorKind::UnexpectedEof => {
                return Err(io::Error::other("Ends before the bytes that it had"));
            }
            Err(error) => return Err(error),
        }
        self.next = at.saturating_add(buf.len() as u64);
        self.piece = buf.len();
        if goes_on && self.next < self.first.length {
            return Ok(());
        }
        self.see_unchanged()
    }
}
