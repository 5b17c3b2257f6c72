// The line that tells how far reading goes.
use std::fmt::{self, Display, Formatter};

// A million bytes.
const MEGABYTE: u64 = 1_000_000;

// How much room a name has. With it and with numbers of six digits a line fits into 80 columns.
const NAME_COLUMNS: usize = 36;

/// How far one file was read, and how fast a run reads.
#[derive(Clone, Copy)]
pub struct Line<'a> {
    /// The file's name, with its folders.
    pub name: &'a str,
    /// The place up to which the file was read.
    pub read: u64,
    /// How many bytes it has, where that was told.
    pub size: Option<u64>,
    /// How many bytes of all files the run has read.
    pub total: u64,
    /// How many bytes it reads in a millisecond.
    pub rate: u64,
}

// A file's own name, without its folders, and as much of it as there is room for. What isn't ASCII may be two columns
// wide. A control character would move the cursor, so it isn't printed.
#[derive(Clone, Copy)]
struct OwnName<'a>(&'a str);

impl Display for OwnName<'_> {
    fn fmt<W: fmt::Write>(&self, f: &mut Formatter<W>) -> fmt::Result {
        let own = match self.0.rsplit_once('/') {
            Some((_, own)) => own,
            None => self.0,
        };
        let mut columns: usize = 0;
        for letter in own.chars() {
            columns = columns.saturating_add(if letter.is_ascii() { 1 } else { 2 });
            if columns > NAME_COLUMNS {
                return write!(f, "..");
            }
            let shown = if letter.is_control() { '?' } else { letter };
            write!(f, "{shown}")?;
        }
        Ok(())
    }
}

impl Display for Line<'_> {
    fn fmt<W: fmt::Write>(&self, f: &mut Formatter<W>) -> fmt::Result {
        let own = OwnName(self.name);
        let rate = self.rate / 1_000;
        match self.size {
            Some(size) if size >= MEGABYTE => {
                let read = self.read / MEGABYTE;
                let size = size / MEGABYTE;
                write!(f, "rip: {own}: {read} of {size} MB, {rate} MB/s")
            }
            _ => {
                let total = self.total / MEGABYTE;
                write!(f, "rip: {own}: {total} MB in all, {rate} MB/s")
            }
        }
    }
}
