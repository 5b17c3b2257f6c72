// What a run knows of the names that it was given.
ghost use Rattle.std.specs.Prelude.{◌≡◌, ◌↔◌, IsTrue, Some, List, ℕ, OnOk, OnErr};

use crate::file_state::FileState;
use std::alloc::{AllocError, Global};
use std::collections::BTreeMap;

/// What is known of a name.
#[derive(Clone, Copy, Debug)]
pub struct Known {
    /// Whether no file had the name when its length was last asked for.
    pub is_missing: bool,
    /// What the first reading under the name found.
    pub first: Option<FileState>,
}

impl Known {
    ghost use Rattle.real_folder.specs.KnownNames.{nothing, is_read_as};

    // Nothing is known of a name.
    fn nothing() -> Self
        ensures { result ≡ nothing }
    {
        Known {
            is_missing: false,
            first: None,
        }
    }

    // Whether this file was read.
    fn is_read_as(&self, file: &FileState) -> bool
        ensures { result ≡ is_read_as file.now self.now }
    {
        match self.first {
            Some(first) => first.is_same_file(file),
            None => false,
        }
    }
}

/// What a run knows of the names that it was given.
#[derive(Drop)]
pub struct KnownNames {
    alloc: Global,
    names: BTreeMap<String, Known>,
}

impl KnownNames {
    ghost use Rattle.real_folder.specs.KnownNames.{nothing, known_at, first_read, IsMissing, Learns, KnowsTheSame, WasRead};

    /// Nothing is known. It takes no memory.
    pub fn new(alloc: Global) -> Self
        ensures { (name : List ℕ) → known_at result name ≡ nothing }
    {
        KnownNames {
            alloc,
            names: BTreeMap::new(alloc),
        }
    }

    /// What is known of a name.
    pub fn known(&self, name: &str) -> Known
        ensures { result ≡ known_at self.now name.now }
    {
        match self.names.get(name) {
            Some(known) => *known,
            None => Known::nothing(),
        }
    }

    // Learns this of a name.
    fn learn(&mut self, name: &str, known: Known) -> Result<(), AllocError>
        ensures ok { OnOk result (Learns name.now known self.old self.new) }
        ensures err { OnErr result (KnowsTheSame self.old self.new) }
    {
        let key = String::from_str(self.alloc, name)?;
        self.names.insert(key, known)?;
        Ok(())
    }

    /// The name was asked for, and a file had it or not. After want of memory the same is known as before.
    pub fn tell(&mut self, name: &str, is_missing: bool) -> Result<(), AllocError>
        ensures ok { OnOk result (Learns name.now (record (known_at self.old name.now) { is_missing = is_missing }) self.old self.new) }
        ensures err { OnErr result (KnowsTheSame self.old self.new) }
    {
        let first = self.known(name).first;
        self.learn(name, Known { is_missing, first })
    }

    /// A file was read under this name, for the first time. After want of memory the same is known as before.
    pub fn tell_read(&mut self, name: &str, first: FileState) -> Result<(), AllocError>
        ensures ok { OnOk result (Learns name.now (record (known_at self.old name.now) { first = Some first }) self.old self.new) }
        ensures err { OnErr result (KnowsTheSame self.old self.new) }
    {
        let is_missing = self.known(name).is_missing;
        let first = Some(first);
        self.learn(name, Known { is_missing, first })
    }

    /// Nothing is known of the name any more.
    pub fn forget(&mut self, name: &str)
        ensures { Learns name.now nothing self.old self.new }
    {
        self.names.remove(name);
    }

    /// Whether this file was read, under whatever name.
    pub fn has_read(&self, file: &FileState) -> bool
        ensures { IsTrue result ↔ WasRead file.now self.now }
    {
        self.names.values().any(|known| known.is_read_as(file))
    }
}
