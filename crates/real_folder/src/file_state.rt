// What the system says of a file.
ghost use Rattle.std.specs.Prelude.{◌≡◌, ◌↔◌, IsTrue};

use std::fs::Metadata;
use std::os::unix::fs::MetadataExt;

/// What the system says of a file at one moment.
#[derive(Clone, Copy, Debug)]
pub struct FileState {
    /// The device that it lies on, and its number there: two names with the same two are one file.
    pub device: u64,
    pub number: u64,
    /// Whether it is a file of bytes, and no folder, link, pipe or device.
    pub is_plain: bool,
    /// How many names it has.
    pub links: u64,
    /// In bytes.
    pub length: u64,
    /// When its bytes were last changed, in seconds since 1970 and nanoseconds.
    pub seconds: i64,
    pub nanoseconds: i64,
}

impl FileState {
    ghost use Rattle.std.specs.Fs.{metadata_len, file_type, IsFile};
    ghost use Rattle.real_folder.specs.FileState.{IsSameFile, IsAsItWas, IsOwnFile};

    /// What was found.
    pub fn of(found: &Metadata) -> Self
        ensures plain { IsTrue result.is_plain ↔ IsFile (file_type found.now) }
        ensures length { result.length ≡ metadata_len found.now }
    {
        FileState {
            device: found.dev(),
            number: found.ino(),
            is_plain: found.is_file(),
            links: found.nlink(),
            length: found.len(),
            seconds: found.mtime(),
            nanoseconds: found.mtime_nsec(),
        }
    }

    /// Whether both are one file.
    pub fn is_same_file(&self, other: &FileState) -> bool
        ensures { IsTrue result ↔ IsSameFile self.now other.now }
    {
        self.device == other.device && self.number == other.number
    }

    /// Whether a later look found the same file, with the length and the time of change that it had.
    pub fn is_as_it_was(&self, later: &FileState) -> bool
        ensures { IsTrue result ↔ IsAsItWas self.now later.now }
    {
        self.is_same_file(later)
            && self.length == later.length
            && self.seconds == later.seconds
            && self.nanoseconds == later.nanoseconds
    }

    /// Whether it is a plain file with one name.
    pub fn is_own_file(&self) -> bool
        ensures { IsTrue result ↔ IsOwnFile self.now }
    {
        self.is_plain && self.links == 1
    }
}
