// What a folder has: the lengths of its files, and their names.
ghost use Rattle.std.specs.Prelude.{◌≡◌, true, map, All, IfOk};
ghost use Rattle.std.specs.Ordering.{nat_cmp};
ghost use Rattle.std.specs.Cmp.Lexicographic.{slice_cmp};
ghost use Rattle.std.specs.List.Sorted.{IsStrictlySortedBy};
ghost use Rattle.std.specs.String.{string_bytes};
ghost use Rattle.rip_outside.specs.Listing.{is_own_name, stands_in};

use rip_outside::{Name, Names};
use std::alloc::{AllocError, Global};
use std::collections::BTreeSet;
use std::fs::{self, DirEntry, ReadDir};
use std::io::{self, ErrorKind};
use std::rt::Files;

// The length that is told of a folder, a pipe or a device, which have none: that of a block, so that whoever asks for it
// begins to read, which fails.
const LENGTH_OF_NO_FILE: u64 = 4096;

// Whether an error says that no file can have the name.
fn tells_missing(kind: ErrorKind) -> bool {
    matches!(
        kind,
        ErrorKind::NotFound | ErrorKind::NotADirectory | ErrorKind::InvalidFilename
    )
}

/// The length of a file, or None where the name isn't held.
pub fn size_of<R: Files>(rt: &R, name: &str) -> io::Result<Option<u64>> {
    // No file has such a name.
    if name.as_bytes().contains(&0) {
        return Ok(None);
    }
    match fs::metadata(rt, name) {
        Ok(found) if found.is_file() => Ok(Some(found.len())),
        Ok(_) => Ok(Some(LENGTH_OF_NO_FILE)),
        Err(error) if tells_missing(error.kind()) => Ok(None),
        Err(error) => Err(error),
    }
}

// Begins to read a folder's entries, or answers None where no folder has the name.
fn entries_of<'a, R: Files + AllocGlobal>(
    rt: &'a R,
    folder: &str,
) -> io::Result<Option<ReadDir<&'a R>>> {
    // No folder has such a name.
    if folder.as_bytes().contains(&0) {
        return Ok(None);
    }
    match fs::read_dir(&rt, folder) {
        Ok(entries) => Ok(Some(entries)),
        Err(error) if tells_missing(error.kind()) => Ok(None),
        Err(error) => Err(error),
    }
}

// Whether an entry is listed: not where it is a folder, nor where it is gone by now. A link is no folder, wherever it
// leads.
fn is_listed<R: Files>(entry: &DirEntry<R>) -> io::Result<bool> {
    match entry.metadata() {
        Ok(found) => Ok(!found.is_dir()),
        Err(error) if tells_missing(error.kind()) => Ok(false),
        Err(error) => Err(error),
    }
}

// A file's own name has at least one byte, and no `/`.
fn is_own_name(name: &[u8]) -> bool
    ensures { result ≡ is_own_name name.now }
{
    !name.is_empty() && !name.contains(&b'/')
}

// The name of a file that has this own name in a folder. One that no file can have, which no system tells, is a failure.
fn name_in(alloc: Global, folder: &str, own: &str) -> io::Result<String>
    ensures { IfOk result (λ name. stands_in folder.now (string_bytes name) ≡ true) }
{
    if !is_own_name(own.as_bytes()) {
        return Err(io::Error::other("Has a name that no file can have"));
    }
    let mut name = String::from_str(alloc, folder)?;
    name.push_str(own)?;
    Ok(name)
}

// The names of a set in their order.
fn in_order(alloc: Global, set: BTreeSet<String>) -> Result<Names, AllocError>
    ensures names { IfOk result (λ names. names ≡ map string_bytes set.keys) }
    ensures ordered { IfOk result (λ names. IsStrictlySortedBy (slice_cmp nat_cmp) names) }
{
    let mut names = Vec::new(alloc);
    for name in set {
        names.push(Name::of(name))?;
    }
    Ok(Names::of(names))
}

/// The names of what stands directly in a folder, whose own ends in `/`, in the order of their bytes: of files, links,
/// pipes and devices, and of no folders. A folder that isn't there has none. A name that isn't UTF-8 is a failure.
pub fn list_files<R: Files + AllocGlobal>(rt: &R, alloc: Global, folder: &str) -> io::Result<Names>
    ensures inside { IfOk result (λ names. All (λ name. stands_in folder.now name ≡ true) names) }
    ensures ordered { IfOk result (λ names. IsStrictlySortedBy (slice_cmp nat_cmp) names) }
{
    let Some(entries) = entries_of(rt, folder)? else {
        return Ok(Names::of(Vec::new(alloc)));
    };
    let mut names = BTreeSet::new(alloc);
    for entry in entries {
        let entry = entry?;
        if is_listed(&entry)? {
            names.insert(name_in(alloc, folder, entry.file_name())?)?;
        }
    }
    Ok(in_order(alloc, names)?)
}
