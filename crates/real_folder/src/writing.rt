// A file that is being written.
ghost use Rattle.std.specs.Prelude.{◌≡◌, ◌↔◌, IsTrue, IsOk, IfOk, OnOk};
ghost use Rattle.std.specs.String.{string_bytes};
ghost use Rattle.real_folder.specs.KnownNames.{MayEmpty};

use crate::file_state::FileState;
use crate::known_names::KnownNames;
use std::alloc::Global;
use std::fs::{self, File, OpenOptions, TryLockError};
use std::io::{self, ErrorKind, Write};
use std::path::Path;
use std::rt::Files;

/// A file that is being written. Its handle and its lock are kept from its making until it has its name.
#[derive(Drop)]
pub struct Writing {
    name: String,
    file: File,
    state: FileState,
}

// An error after something was changed, where want of memory isn't told.
fn after_change(error: io::Error) -> io::Error {
    match error.kind() {
        ErrorKind::OutOfMemory => io::Error::other("Cannot allocate memory"),
        _ => error,
    }
}

// Fails where a file isn't one that may be emptied: a plain file of this one name that this run hasn't read.
fn see_may_empty(found: &FileState, known: &KnownNames) -> io::Result<()>
    ensures { IsOk result ↔ MayEmpty found.now known.now }
{
    if !found.is_own_file() {
        return Err(io::Error::other("Not a plain file with one name"));
    }
    if known.has_read(found) {
        return Err(io::Error::other("This run reads this file"));
    }
    Ok(())
}

// The folder that a name lies in.
fn folder_of(name: &str) -> Path<'_> {
    match Path::new(name).parent() {
        Some(folder) if !folder.as_str().is_empty() => folder,
        _ => Path::new("."),
    }
}

// Makes sure of the names in a folder.
fn sync_folder<R: Files<File = File>>(rt: &R, folder: Path<'_>) -> io::Result<()> {
    File::open(rt, folder)?.sync_all()
}

// Opens a file that has the name and may be emptied, or makes one where none has it. It empties nothing, and follows no
// link. For reading too, since the opening of a pipe for both never waits.
fn open_own<R: Files<File = File>>(rt: &R, known: &KnownNames, name: &str) -> io::Result<File> {
    match fs::symlink_metadata(rt, name) {
        Ok(found) => {
            see_may_empty(&FileState::of(&found), known)?;
            OpenOptions::new().read(true).write(true).open(rt, name)
        }
        Err(error) if error.kind() == ErrorKind::NotFound => File::create_new(rt, name),
        Err(error) => Err(error),
    }
}

// Locks an open file without waiting, sees that it still is the one that has the name and may be emptied, and empties it.
fn take_over<R: Files<File = File>>(
    rt: &R,
    known: &KnownNames,
    name: &str,
    file: &File,
) -> io::Result<FileState> {
    match file.try_lock() {
        Ok(()) => {}
        Err(TryLockError::WouldBlock) => return Err(io::Error::other(
            "Another run writes this file",
        )),
        Err(TryLockError::Error(error)) => return Err(error),
    }
    let state = FileState::of(&file.metadata()?);
    see_may_empty(&state, known)?;
    see_named(rt, name, &state)?;
    file.set_len(0)?;
    Ok(state)
}

// Fails where another file has the name, or none.
fn see_named<R: Files<File = File>>(rt: &R, name: &str, state: &FileState) -> io::Result<()> {
    let named = FileState::of(&fs::symlink_metadata(rt, name)?);
    if named.is_same_file(state) {
        Ok(())
    } else {
        Err(io::Error::other("Another file has this name now"))
    }
}

// Gives a name that no file has, where the file system has no links: it looks, and then renames.
fn rename_if_free<R: Files<File = File>>(rt: &R, from: &str, to: &str) -> io::Result<()> {
    match fs::symlink_metadata(rt, to) {
        Ok(_) => Err(io::Error::new(ErrorKind::AlreadyExists, "File exists")),
        Err(error) if error.kind() == ErrorKind::NotFound => fs::rename(rt, from, to),
        Err(error) => Err(error),
    }
}

// Gives a file a name that no other file may have: a link fails where one has it.
fn name_without_replacing<R: Files<File = File>>(rt: &R, from: &str, to: &str) -> io::Result<()> {
    match fs::hard_link(rt, from, to) {
        Ok(()) => fs::remove_file(rt, from).map_err(after_change),
        Err(error) => match error.kind() {
            ErrorKind::Unsupported | ErrorKind::PermissionDenied | ErrorKind::TooManyLinks => {
                rename_if_free(rt, from, to)
            }
            _ => Err(error),
        },
    }
}

impl Writing {
    /// Makes an empty file of this name, or takes over and empties one that a dead run left. What isn't a plain file with
    /// one name, what this run has read and what another run holds stays as it is, and that is a failure.
    pub fn make<R: Files<File = File>>(
        rt: &R,
        alloc: Global,
        known: &KnownNames,
        name: &str,
    ) -> io::Result<Writing>
        ensures { IfOk result (λ writing. string_bytes writing.name ≡ name.now) }
    {
        let kept = String::from_str(alloc, name)?;
        let file = open_own(rt, known, name)?;
        let state = take_over(rt, known, name, &file).map_err(after_change)?;
        Ok(Writing {
            name: kept,
            file,
            state,
        })
    }

    // Fails where this isn't the file of that name.
    fn see_is_of(&self, name: &str) -> io::Result<()>
        ensures { IsOk result ↔ string_bytes self.now.name ≡ name.now }
    {
        if self.name.as_str() == name {
            Ok(())
        } else {
            Err(io::Error::other("This run hasn't made this file"))
        }
    }

    /// Adds bytes at the end of the file of this name.
    pub fn append(&mut self, name: &str, bytes: &[u8]) -> io::Result<()>
        ensures { OnOk result (string_bytes self.old.name ≡ name.now) }
    {
        self.see_is_of(name)?;
        self.file.write_all(bytes)
    }

    /// Makes sure of the bytes of the file of this name, and then of the name.
    pub fn sync<R: Files<File = File>>(&self, rt: &R, name: &str) -> io::Result<()>
        ensures { OnOk result (string_bytes self.now.name ≡ name.now) }
    {
        self.see_is_of(name)?;
        self.file.sync_all()?;
        sync_folder(rt, folder_of(name))
    }

    /// Gives the file of this name another one, which a file may have only where it may be replaced.
    pub fn rename<R: Files<File = File>>(
        &self,
        rt: &R,
        from: &str,
        to: &str,
        may_replace: bool,
    ) -> io::Result<()>
        ensures { OnOk result (string_bytes self.now.name ≡ from.now) }
    {
        self.see_is_of(from)?;
        see_named(rt, from, &self.state)?;
        if may_replace {
            fs::rename(rt, from, to)
        } else {
            name_without_replacing(rt, from, to)
        }
    }
}

/// Makes sure of both names of a file that got another one, each folder once.
pub fn sync_names<R: Files<File = File>>(rt: &R, from: &str, to: &str) -> io::Result<()> {
    let (left, entered) = (folder_of(from), folder_of(to));
    sync_folder(rt, entered).map_err(after_change)?;
    if left.as_str() == entered.as_str() {
        return Ok(());
    }
    sync_folder(rt, left).map_err(after_change)
}
