// What a real disk and a real output do, which no clause tells.
ghost use Rattle.std.specs.Prelude.{◌≡◌, ◌-◌, ◌==◌, length, slice_index};

use crate::{RealShelf, RealSink};
use rip_outside::{Fault, Folder, Names, Shelf, ShelfFail, Sink};
use std::alloc::{AllocError, Allocator, Global};
use std::cell::Cell;
use std::fmt::Display;
use std::fs::{File, Metadata, OpenOptions};
use std::io::{Eprint, ErrorKind, Read};
use std::os::unix::fs::symlink;
use std::rt::Files;
use std::test::Fail;
use std::{env, fs, io, process};

// What every folder of a disk tells of its entries: their names, these names, each ended by a zero byte, or an error.
#[derive(Clone, Copy, Drop)]
enum Entries {
    Own,
    These(&'static [u8]),
    Refused(ErrorKind),
}

// The runtime's files, which may lie on a file system without links. The last line of standard error is kept.
#[derive(Drop)]
struct Disk {
    rt: HostRuntime,
    has_links: bool,
    entries: Entries,
    line: Cell<Option<String>>,
}

impl Disk {
    fn new(rt: HostRuntime, has_links: bool) -> Self {
        Disk {
            rt,
            has_links,
            entries: Entries::Own,
            line: Cell::new(None),
        }
    }

    fn telling(rt: HostRuntime, entries: Entries) -> Self {
        Disk {
            rt,
            has_links: true,
            entries,
            line: Cell::new(None),
        }
    }
}

// A folder that is read, or names in its place.
#[derive(Drop)]
enum Opened {
    Folder(<HostRuntime as Files>::Dir),
    Names(&'static [u8]),
}

impl Read for Opened {
    fn read(&mut self, buf: &mut [u8]) -> io::Result<usize> {
        match self {
            Opened::Folder(folder) => folder.read(buf),
            Opened::Names(names) => names.read(buf),
        }
    }
}

impl Alloc for Disk {
    type A = Global;

    fn alloc(&self) -> Global {
        self.rt.alloc()
    }
}

impl Eprint for Disk {
    fn eprint<D: Display + Drop>(&self, _value: D) -> io::Result<()> {
        Ok(())
    }

    fn eprintln<D: Display + Drop>(&self, value: D) -> io::Result<()> {
        self.line.set(Some(format!(in self.rt.alloc(); "{value}")?));
        Ok(())
    }
}

impl Files for Disk {
    type File = File;

    type Dir = Opened;

    fn open_file(&self, how: &OpenOptions, path: &str) -> io::Result<File> {
        self.rt.open_file(how, path)
    }

    fn open_dir(&self, path: &str) -> io::Result<Opened> {
        match self.entries {
            Entries::Own => Ok(Opened::Folder(self.rt.open_dir(path)?)),
            Entries::These(names) => Ok(Opened::Names(names)),
            Entries::Refused(kind) => Err(io::Error::from(kind)),
        }
    }

    fn metadata(&self, path: &str) -> io::Result<Metadata> {
        self.rt.metadata(path)
    }

    fn symlink_metadata(&self, path: &str) -> io::Result<Metadata> {
        self.rt.symlink_metadata(path)
    }

    fn copy(&self, from: &str, to: &str) -> io::Result<u64> {
        self.rt.copy(from, to)
    }

    fn rename(&self, from: &str, to: &str) -> io::Result<()> {
        self.rt.rename(from, to)
    }

    fn remove_file(&self, path: &str) -> io::Result<()> {
        self.rt.remove_file(path)
    }

    fn create_dir(&self, path: &str) -> io::Result<()> {
        self.rt.create_dir(path)
    }

    fn remove_dir(&self, path: &str) -> io::Result<()> {
        self.rt.remove_dir(path)
    }

    fn remove_dir_all<B: Allocator>(&self, alloc: B, path: &str) -> io::Result<()> {
        self.rt.remove_dir_all(alloc, path)
    }

    fn hard_link(&self, original: &str, link: &str) -> io::Result<()> {
        if self.has_links {
            self.rt.hard_link(original, link)
        } else {
            Err(io::Error::from(io::ErrorKind::Unsupported))
        }
    }
}

// A new folder for one test.
fn folder_for(rt: &HostRuntime, test: &str) -> io::Result<String> {
    let id = process::id(rt.process());
    let temporary = env::temp_dir(rt)?;
    let folder = format!(in rt.alloc(); "{}/real_folder_{id}_{test}", temporary.display())?;
    fs::create_dir_all(rt, folder.as_str())?;
    Ok(folder)
}

// Writes a file of eight bytes under a first name, without giving it another.
fn is_written<R: Files<File = File> + Eprint>(shelf: &mut RealShelf<'_, R>, part: &str) -> bool {
    shelf.make(part).is_ok()
        && shelf.append(part, b"RIPPAR").is_ok()
        && shelf.append(part, b"01").is_ok()
        && shelf.sync(part).is_ok()
}

// Whether a file holds these bytes.
fn holds(rt: &HostRuntime, name: &str, bytes: &[u8]) -> bool {
    match fs::read(rt, name) {
        Ok(held) => held.as_slice() == bytes,
        Err(_) => false,
    }
}

#[test]
fn files_are_written_and_read(rt: HostRuntime) -> Result<(), Fail> {
    let folder = folder_for(&rt, "stored")?;
    let part = format!(in rt.alloc(); "{folder}/disc.part")?;
    let name = format!(in rt.alloc(); "{folder}/disc.rpar")?;
    let disk = Disk::new(rt, true);
    let mut shelf = RealShelf::new(&disk);
    let mut last = [0; 4];
    assert!(rt; is_written(&mut shelf, part.as_str()));
    assert!(rt;
        part.as_str() != name.as_str() && shelf.rename(part.as_str(), name.as_str()).is_ok()
    );
    assert_eq!(rt; shelf.size(name.as_str()), Ok(Some(8)));
    assert_eq!(rt; shelf.read_at(name.as_str(), 4, &mut last), Ok(()));
    assert_eq!(rt; last, *b"AR01");
    assert_eq!(rt; shelf.read_at(name.as_str(), 5, &mut last), Err(Fault));
    assert_eq!(rt; shelf.size(part.as_str()), Ok(None));
    assert_eq!(rt; shelf.read_at(part.as_str(), 0, &mut last), Err(Fault));
    assert_eq!(rt; shelf.append(name.as_str(), b"02"), Err(ShelfFail::Failed));
    assert_eq!(rt; shelf.sync(part.as_str()), Err(Fault));
    fs::remove_dir_all(&rt, folder.as_str())?;
    Ok(())
}

// The line that was printed last.
fn line_of(disk: &Disk) -> String {
    match disk.line.take() {
        Some(line) => line,
        None => String::new(disk.rt.alloc()),
    }
}

#[test]
fn names_of_no_file(rt: HostRuntime) -> Result<(), Fail> {
    let folder = folder_for(&rt, "names")?;
    let file = format!(in rt.alloc(); "{folder}/disc.wav")?;
    fs::write(&rt, file.as_str(), "RIFF")?;
    let disk = Disk::new(rt, true);
    let mut shelf = RealShelf::new(&disk);
    let mut bytes = [0; 4];
    assert!(rt; matches!(shelf.size(folder.as_str()), Ok(Some(_))));
    assert_eq!(rt; shelf.read_at(folder.as_str(), 0, &mut bytes), Err(Fault));
    let wanted = format!(in rt.alloc(); "rip: {folder}: Is a directory")?;
    assert_eq!(rt; line_of(&disk).as_str(), wanted.as_str());
    let nowhere = format!(in rt.alloc(); "{folder}/none/disc.rpar")?;
    assert_eq!(rt; shelf.make(nowhere.as_str()), Err(ShelfFail::Failed));
    let wanted = format!(in rt.alloc(); "rip: {nowhere}: No such file or directory")?;
    assert_eq!(rt; line_of(&disk).as_str(), wanted.as_str());
    let within = format!(in rt.alloc(); "{file}/x")?;
    assert_eq!(rt; shelf.size(within.as_str()), Ok(None));
    let zero = format!(in rt.alloc(); "{file}\0")?;
    assert_eq!(rt; shelf.size(zero.as_str()), Ok(None));
    let long = format!(in rt.alloc(); "{folder}/{:0300}", 0)?;
    assert_eq!(rt; shelf.size(long.as_str()), Ok(None));
    fs::remove_dir_all(&rt, folder.as_str())?;
    Ok(())
}

// A name that ends in `/` is a folder's.
fn ends_in_slash(name: &[u8]) -> bool
    ensures { result ≡ (slice_index name.now (length name.now - 1) == 47) }
{
    name.len() > 0 && name[name.len() - 1] == b'/'
}

// What stands behind the folder's name in each of these names, behind a blank.
fn own_names(alloc: Global, folder: &str, names: &Names) -> Result<String, AllocError> {
    let mut own = String::new(alloc);
    for name in names.as_slice() {
        own.push(' ')?;
        if let Some(rest) = name.as_str().strip_prefix(folder) {
            own.push_str(rest)?;
        }
    }
    Ok(own)
}

// The own names that a folder's listing has, each behind a blank.
fn listed(disk: &Disk, folder: &str) -> Result<String, ShelfFail> {
    let alloc = disk.rt.alloc();
    if !ends_in_slash(folder.as_bytes()) {
        return Err(ShelfFail::Failed);
    }
    let names = RealShelf::new(disk).list(alloc, folder)?;
    own_names(alloc, folder, &names).map_err(|_| ShelfFail::Oom)
}

#[test]
fn a_folder_is_listed(rt: HostRuntime) -> Result<(), Fail> {
    let alloc = rt.alloc();
    let folder = folder_for(&rt, "listed")?;
    for name in [
        "b.wav",
        "a.wav",
        "\u{e4}.wav",
        "A.wav",
        ".a",
        "a.wav2",
        "a b",
    ] {
        fs::write(&rt, format!(in alloc; "{folder}/{name}")?.as_str(), "RIFF")?;
    }
    let below = format!(in alloc; "{folder}/below")?;
    fs::create_dir_all(&rt, below.as_str())?;
    fs::write(&rt, format!(in alloc; "{below}/c.wav")?.as_str(), "RIFF")?;
    for (target, link) in [("a.wav", "link"), ("none", "dangling"), ("below", "way")] {
        symlink(&rt, target, format!(in alloc; "{folder}/{link}")?.as_str())?;
    }
    let disk = Disk::new(rt, true);
    let found = listed(&disk, format!(in alloc; "{folder}/")?.as_str());
    let wanted = " .a A.wav a b a.wav a.wav2 b.wav dangling link way \u{e4}.wav";
    assert!(rt; found.is_ok_and(|found| found.as_str() == wanted));
    let found = listed(&disk, format!(in alloc; "{below}/")?.as_str());
    assert!(rt; found.is_ok_and(|found| found.as_str() == " c.wav"));
    fs::remove_dir_all(&rt, folder.as_str())?;
    Ok(())
}

#[test]
fn a_folder_that_is_not_there_has_no_names(rt: HostRuntime) -> Result<(), Fail> {
    let alloc = rt.alloc();
    let folder = folder_for(&rt, "absent")?;
    let file = format!(in alloc; "{folder}/disc.wav")?;
    fs::write(&rt, file.as_str(), "RIFF")?;
    let disk = Disk::new(rt, true);
    for name in [
        format!(in alloc; "{folder}/none/")?,
        format!(in alloc; "{file}/")?,
        format!(in alloc; "{folder}/\0/")?,
        format!(in alloc; "{folder}/{:0300}/", 0)?,
    ] {
        let found = listed(&disk, name.as_str());
        assert!(rt; found.is_ok_and(|found| found.as_str() == ""), "at {name}");
    }
    fs::remove_dir_all(&rt, folder.as_str())?;
    Ok(())
}

#[test]
fn a_folder_that_tells_no_names_is_a_failure(rt: HostRuntime) -> Result<(), Fail> {
    let alloc = rt.alloc();
    let folder = folder_for(&rt, "untold")?;
    fs::write(&rt, format!(in alloc; "{folder}/a.wav")?.as_str(), "RIFF")?;
    let name = format!(in alloc; "{folder}/")?;
    // An entry that is gone by now is left out.
    let disk = Disk::telling(rt, Entries::These(b"gone.wav\0..\0a.wav\0"));
    let found = listed(&disk, name.as_str());
    assert!(rt; found.is_ok_and(|found| found.as_str() == " a.wav"));
    // A name that isn't UTF-8.
    let disk = Disk::telling(rt, Entries::These(b"a.wav\0\xff.wav\0"));
    assert!(rt; matches!(listed(&disk, name.as_str()), Err(ShelfFail::Failed)));
    let wanted = format!(in alloc; "rip: {name}: invalid filename")?;
    assert_eq!(rt; line_of(&disk).as_str(), wanted.as_str());
    let disk = Disk::telling(rt, Entries::Refused(ErrorKind::PermissionDenied));
    assert!(rt; matches!(listed(&disk, name.as_str()), Err(ShelfFail::Failed)));
    let wanted = format!(in alloc; "rip: {name}: permission denied")?;
    assert_eq!(rt; line_of(&disk).as_str(), wanted.as_str());
    let disk = Disk::telling(rt, Entries::Refused(ErrorKind::OutOfMemory));
    assert!(rt; matches!(listed(&disk, name.as_str()), Err(ShelfFail::Oom)));
    fs::remove_dir_all(&rt, folder.as_str())?;
    Ok(())
}

#[test]
fn one_run_writes_a_file(rt: HostRuntime) -> Result<(), Fail> {
    let folder = folder_for(&rt, "lock")?;
    let part = format!(in rt.alloc(); "{folder}/disc.part")?;
    let disk = Disk::new(rt, true);
    let mut second = RealShelf::new(&disk);
    {
        let mut first = RealShelf::new(&disk);
        assert!(rt; is_written(&mut first, part.as_str()));
        assert_eq!(rt; second.make(part.as_str()), Err(ShelfFail::Failed));
        assert!(rt; holds(&rt, part.as_str(), b"RIPPAR01"));
    }
    // The first run has ended, and what it left is taken over.
    assert_eq!(rt; second.make(part.as_str()), Ok(()));
    assert!(rt; holds(&rt, part.as_str(), b""));
    assert_eq!(rt; second.make(part.as_str()), Ok(()));
    fs::remove_dir_all(&rt, folder.as_str())?;
    Ok(())
}

#[test]
fn what_is_read_is_never_emptied(rt: HostRuntime) -> Result<(), Fail> {
    let folder = folder_for(&rt, "alias")?;
    let rip = format!(in rt.alloc(); "{folder}/rip.wav")?;
    let spelled = format!(in rt.alloc(); "{folder}/./rip.wav")?;
    let linked = format!(in rt.alloc(); "{folder}/linked.part")?;
    let pointed = format!(in rt.alloc(); "{folder}/pointed.part")?;
    let dangling = format!(in rt.alloc(); "{folder}/dangling.part")?;
    fs::write(&rt, rip.as_str(), "RIFF")?;
    symlink(&rt, rip.as_str(), pointed.as_str())?;
    symlink(&rt, linked.as_str(), dangling.as_str())?;
    let disk = Disk::new(rt, true);
    let mut shelf = RealShelf::new(&disk);
    let mut bytes = [0; 4];
    assert_eq!(rt; shelf.read_at(rip.as_str(), 0, &mut bytes), Ok(()));
    for name in [
        spelled.as_str(),
        pointed.as_str(),
        dangling.as_str(),
        folder.as_str(),
    ] {
        assert_eq!(rt; shelf.make(name), Err(ShelfFail::Failed), "at {name}");
    }
    fs::hard_link(&rt, rip.as_str(), linked.as_str())?;
    assert_eq!(rt;
        RealShelf::new(&disk).make(linked.as_str()),
        Err(ShelfFail::Failed)
    );
    assert!(rt; holds(&rt, rip.as_str(), b"RIFF"));
    fs::remove_dir_all(&rt, folder.as_str())?;
    Ok(())
}

#[test]
fn a_file_that_appears_is_not_replaced(rt: HostRuntime) -> Result<(), Fail> {
    let folder = folder_for(&rt, "appears")?;
    let part = format!(in rt.alloc(); "{folder}/disc.part")?;
    let name = format!(in rt.alloc(); "{folder}/disc.rpar")?;
    for has_links in [true, false] {
        let disk = Disk::new(rt, has_links);
        let mut shelf = RealShelf::new(&disk);
        assert_eq!(rt; shelf.size(name.as_str()), Ok(None));
        assert!(rt; part.as_str() != name.as_str() && is_written(&mut shelf, part.as_str()));
        fs::write(&rt, name.as_str(), "kept")?;
        assert_eq!(rt;
            shelf.rename(part.as_str(), name.as_str()),
            Err(ShelfFail::Failed)
        );
        assert!(rt; holds(&rt, name.as_str(), b"kept") && holds(&rt, part.as_str(), b"RIPPAR01"));
        // One that was told to be there is replaced.
        assert_eq!(rt; shelf.size(name.as_str()), Ok(Some(4)));
        assert_eq!(rt; shelf.rename(part.as_str(), name.as_str()), Ok(()));
        assert!(rt; holds(&rt, name.as_str(), b"RIPPAR01"));
        assert_eq!(rt; shelf.size(part.as_str()), Ok(None));
        fs::remove_file(&rt, name.as_str())?;
        // And one that stays away is given.
        assert_eq!(rt; shelf.size(name.as_str()), Ok(None));
        assert!(rt; is_written(&mut shelf, part.as_str()));
        assert_eq!(rt; shelf.rename(part.as_str(), name.as_str()), Ok(()));
        assert!(rt; holds(&rt, name.as_str(), b"RIPPAR01"));
        fs::remove_file(&rt, name.as_str())?;
    }
    fs::remove_dir_all(&rt, folder.as_str())?;
    Ok(())
}

#[test]
fn a_file_that_changes_is_a_failure(rt: HostRuntime) -> Result<(), Fail> {
    let folder = folder_for(&rt, "changes")?;
    let name = format!(in rt.alloc(); "{folder}/disc.wav")?;
    let other = format!(in rt.alloc(); "{folder}/disc.rpar")?;
    fs::write(&rt, name.as_str(), "RIFFWAVE")?;
    fs::write(&rt, other.as_str(), "RIPP")?;
    let disk = Disk::new(rt, true);
    let mut bytes = [0; 4];
    // By the handle that is kept.
    let mut shelf = RealShelf::new(&disk);
    assert_eq!(rt; shelf.read_at(name.as_str(), 0, &mut bytes), Ok(()));
    fs::write(&rt, name.as_str(), "RIFFWAVEfmt ")?;
    assert_eq!(rt; shelf.read_at(name.as_str(), 0, &mut bytes), Err(Fault));
    // By a handle of its own, after another file was read.
    let mut shelf = RealShelf::new(&disk);
    assert_eq!(rt; shelf.read_at(name.as_str(), 0, &mut bytes), Ok(()));
    assert_eq!(rt; shelf.read_at(other.as_str(), 0, &mut bytes), Ok(()));
    fs::write(&rt, name.as_str(), "RIFF")?;
    assert_eq!(rt; shelf.read_at(name.as_str(), 0, &mut bytes), Err(Fault));
    fs::remove_dir_all(&rt, folder.as_str())?;
    Ok(())
}

// Prints nothing: the output is full.
struct Full;

impl Print for Full {
    fn print<D: Display + Drop>(&self, _value: D) -> io::Result<()> {
        Err(io::Error::from(io::ErrorKind::StorageFull))
    }

    fn println<D: Display + Drop>(&self, _value: D) -> io::Result<()> {
        Err(io::Error::from(io::ErrorKind::StorageFull))
    }

    fn write_all(&self, _bytes: &[u8]) -> io::Result<()> {
        Err(io::Error::from(io::ErrorKind::StorageFull))
    }
}

#[test]
fn a_full_output_is_a_fault(rt: HostRuntime) {
    assert_eq!(rt; RealSink::new(&rt).put(b"done\n"), Ok(()));
    assert_eq!(rt; RealSink::new(&Full).put(b"done\n"), Err(Fault));
}
