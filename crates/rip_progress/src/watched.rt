// A folder whose reading is watched.
ghost use Rattle.std.specs.Prelude.{◌≡◌};

use crate::Watcher;
use rip_outside::{Fault, Folder, Names, Shelf, ShelfFail};
use std::alloc::Global;

/// A folder whose reading is watched. Each call is handed on to the folder, so it holds, counts and tells what the folder
/// does.
#[derive(Drop)]
pub struct Watched<F, W> {
    folder: F,
    watcher: W,
}

impl<F, W> Watched<F, W> {
    /// This folder, watched from now on.
    pub fn new(folder: F, watcher: W) -> Self
        ensures { result.folder ≡ folder }
    {
        Watched { folder, watcher }
    }
}

impl<F: Shelf, W: Watcher> Shelf for Watched<F, W> {
    ghost held = { λ watched. F.held watched.folder };

    ghost faults = { λ watched. F.faults watched.folder };

    ghost taken = { λ watched. F.taken watched.folder };

    ghost crashes = { λ watched. F.crashes watched.folder };

    fn size(&mut self, name: &str) -> Result<Option<u64>, Fault> {
        let told = self.folder.size(name);
        if let Ok(Some(size)) = told {
            self.watcher.sized(name, size);
        }
        told
    }

    fn read_at(&mut self, name: &str, at: u64, buf: &mut [u8]) -> Result<(), Fault> {
        self.folder.read_at(name, at, buf)?;
        self.watcher.read(name, at, buf.len());
        Ok(())
    }

    fn make(&mut self, name: &str) -> Result<(), ShelfFail> {
        self.folder.make(name)
    }

    fn append(&mut self, name: &str, bytes: &[u8]) -> Result<(), ShelfFail> {
        self.folder.append(name, bytes)
    }

    fn sync(&mut self, name: &str) -> Result<(), Fault> {
        self.folder.sync(name)
    }

    fn rename(&mut self, from: &str, to: &str) -> Result<(), ShelfFail> {
        self.folder.rename(from, to)
    }

    ghost tells_held = { λ watched. F.tells_held watched.folder };
}

impl<F: Folder, W: Watcher> Folder for Watched<F, W> {
    fn list(&mut self, alloc: Global, folder: &str) -> Result<Names, ShelfFail> {
        self.folder.list(alloc, folder)
    }

    fn forget(&mut self) {
        self.folder.forget();
        self.watcher.done();
    }
}
