// A watcher that draws a line.
use crate::line::Line;
use crate::pace::Pace;
use crate::screen::Screen;
use rip_progress::Watcher;
use std::alloc::Global;
use std::env;
use std::io::{Eprint, IsTerminal};
use std::rt::{Clock, Env};
use std::time::Instant;

// Of how many files the lengths are kept.
const MOST_SIZES: usize = 256;

// How many bytes a file was told to have.
#[derive(Drop)]
struct FileSize {
    name: String,
    size: u64,
}

/// Whether lines can be drawn on standard error: it is a terminal, and not one that only appends.
pub fn can_draw<R: Env + AllocGlobal>(rt: &R, error: &impl IsTerminal) -> bool {
    error.is_terminal()
        && match env::var(rt, "TERM") {
            Ok(kind) => !kind.as_str().is_empty() && kind.as_str() != "dumb",
            Err(_) => false,
        }
}

/// Draws how far reading goes, once a run has read for a second, at most five times a second. It looks at the clock once in
/// a million bytes.
#[derive(Drop)]
pub struct ReadingLine<'a, R> {
    screen: &'a Screen<'a, R>,
    is_shown: bool,
    alloc: Global,
    pace: Pace,
    sizes: Vec<FileSize>,
}

impl<'a, R: Clock + Eprint + AllocGlobal> ReadingLine<'a, R> {
    /// Nothing was read. Where no line is to be shown, nothing is done at all. It takes no memory.
    pub fn new(screen: &'a Screen<'a, R>, is_shown: bool) -> Self {
        let alloc = screen.alloc();
        ReadingLine {
            screen,
            is_shown,
            alloc,
            pace: Pace::new(),
            sizes: Vec::new(alloc),
        }
    }

    // How many bytes a file was told to have.
    fn size_of(&self, name: &str) -> Option<u64> {
        for sized in &self.sizes {
            if sized.name.as_str() == name {
                return Some(sized.size);
            }
        }
        None
    }

    // Keeps how many bytes a file was told to have. Where memory is wanting, the line lacks it.
    fn keep(&mut self, name: &str, size: u64) {
        for sized in self.sizes.iter_mut() {
            if sized.name.as_str() == name {
                sized.size = size;
                return;
            }
        }
        if self.sizes.len() >= MOST_SIZES {
            self.sizes.clear();
        }
        if let Ok(name) = String::from_str(self.alloc, name) {
            let _ = self.sizes.push(FileSize { name, size });
        }
    }

    // Draws how far a file was read, if that is due.
    fn show(&mut self, name: &str, read: u64) {
        let Ok(now) = Instant::now(self.screen) else {
            return;
        };
        if self.pace.look(now) {
            let line = Line {
                name,
                read,
                size: self.size_of(name),
                total: self.pace.total(),
                rate: self.pace.bytes_a_millisecond(now),
            };
            self.screen.draw(line);
        }
    }
}

impl<R: Clock + Eprint + AllocGlobal> Watcher for ReadingLine<'_, R> {
    fn sized(&mut self, name: &str, size: u64) {
        if self.is_shown {
            self.keep(name, size);
        }
    }

    fn read(&mut self, name: &str, at: u64, bytes: usize) {
        let bytes = bytes as u64;
        if self.is_shown && self.pace.count(bytes) {
            self.show(name, at.saturating_add(bytes));
        }
    }

    // The files may be others by now.
    fn done(&mut self) {
        self.sizes.clear();
    }
}
