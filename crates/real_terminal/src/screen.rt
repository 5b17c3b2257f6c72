// A runtime with one line on its terminal.
use std::alloc::Allocator;
use std::cell::Cell;
use std::fmt::Display;
use std::fs::{Metadata, OpenOptions, Permissions};
use std::io::{self, Eprint};
use std::path::PathBuf;
use std::rt::{Clock, Files};
use std::time::Duration;

/// A runtime that may have drawn a line on standard error, where that is a terminal. All else is what the runtime does,
/// but the line is cleared before anything is printed.
#[derive(Drop)]
pub struct Screen<'a, R> {
    rt: &'a R,
    is_drawn: Cell<bool>,
}

impl<'a, R: Eprint> Screen<'a, R> {
    /// No line is drawn.
    pub fn new(rt: &'a R) -> Self {
        Screen {
            rt,
            is_drawn: Cell::new(false),
        }
    }

    /// Draws a line in the place of the one that is there. Where it can't be drawn, nothing is lost but the line.
    pub fn draw<D: Display + Drop>(&self, line: D) {
        self.is_drawn.set(true);
        let _ = eprint!(self.rt; "\r{line}\x1b[K");
    }

    /// Clears the line, if there is one.
    pub fn clear(&self) {
        if self.is_drawn.get() {
            self.is_drawn.set(false);
            let _ = eprint!(self.rt; "\r\x1b[K");
        }
    }
}

impl<R: Eprint> Eprint for Screen<'_, R> {
    fn eprint<D: Display + Drop>(&self, value: D) -> io::Result<()> {
        self.clear();
        self.rt.eprint(value)
    }

    fn eprintln<D: Display + Drop>(&self, value: D) -> io::Result<()> {
        self.clear();
        self.rt.eprintln(value)
    }
}

impl<R: Print + Eprint> Print for Screen<'_, R> {
    fn print<D: Display + Drop>(&self, value: D) -> io::Result<()> {
        self.clear();
        self.rt.print(value)
    }

    fn println<D: Display + Drop>(&self, value: D) -> io::Result<()> {
        self.clear();
        self.rt.println(value)
    }

    fn write_all(&self, bytes: &[u8]) -> io::Result<()> {
        self.clear();
        self.rt.write_all(bytes)
    }

    fn write_some(&self, bytes: &[u8]) -> io::Result<usize> {
        self.clear();
        self.rt.write_some(bytes)
    }
}

impl<R: Clock> Clock for Screen<'_, R> {
    fn monotonic(&self) -> io::Result<Duration> {
        self.rt.monotonic()
    }

    fn since_1970(&self) -> io::Result<Duration> {
        self.rt.since_1970()
    }

    fn sleep(&self, duration: Duration) {
        self.rt.sleep(duration)
    }
}

impl<R: Alloc> Alloc for Screen<'_, R> {
    type A = R::A;

    fn alloc(&self) -> R::A {
        self.rt.alloc()
    }
}

impl<R: Files> Files for Screen<'_, R> {
    type File = R::File;

    type Dir = R::Dir;

    fn open_file(&self, how: &OpenOptions, path: &str) -> io::Result<R::File> {
        self.rt.open_file(how, path)
    }

    fn open_dir(&self, path: &str) -> io::Result<R::Dir> {
        self.rt.open_dir(path)
    }

    fn metadata(&self, path: &str) -> io::Result<Metadata> {
        self.rt.metadata(path)
    }

    fn symlink_metadata(&self, path: &str) -> io::Result<Metadata> {
        self.rt.symlink_metadata(path)
    }

    fn copy(&self, from: &str, to: &str) -> io::Result<u64> {
        self.rt.copy(from, to)
    }

    fn rename(&self, from: &str, to: &str) -> io::Result<()> {
        self.rt.rename(from, to)
    }

    fn remove_file(&self, path: &str) -> io::Result<()> {
        self.rt.remove_file(path)
    }

    fn create_dir(&self, path: &str) -> io::Result<()> {
        self.rt.create_dir(path)
    }

    fn create_dir_with_mode(&self, path: &str, mode: u32) -> io::Result<()> {
        self.rt.create_dir_with_mode(path, mode)
    }

    fn remove_dir(&self, path: &str) -> io::Result<()> {
        self.rt.remove_dir(path)
    }

    fn remove_dir_all<B: Allocator>(&self, alloc: B, path: &str) -> io::Result<()> {
        self.rt.remove_dir_all(alloc, path)
    }

    fn canonicalize<B: Allocator>(&self, alloc: B, path: &str) -> io::Result<PathBuf<B>> {
        self.rt.canonicalize(alloc, path)
    }

    fn read_link<B: Allocator>(&self, alloc: B, path: &str) -> io::Result<PathBuf<B>> {
        self.rt.read_link(alloc, path)
    }

    fn hard_link(&self, original: &str, link: &str) -> io::Result<()> {
        self.rt.hard_link(original, link)
    }

    fn symlink(&self, original: &str, link: &str) -> io::Result<()> {
        self.rt.symlink(original, link)
    }

    fn set_permissions(&self, path: &str, permissions: Permissions) -> io::Result<()> {
        self.rt.set_permissions(path, permissions)
    }

    fn chown(&self, path: &str, user: Option<u32>, group: Option<u32>) -> io::Result<()> {
        self.rt.chown(path, user, group)
    }

    fn lchown(&self, path: &str, user: Option<u32>, group: Option<u32>) -> io::Result<()> {
        self.rt.lchown(path, user, group)
    }
}
