// The lines of stores.
ghost use Rattle.std.specs.Prelude.{◌≡◌, ◌++◌, [], IfOk, IsOkAnd, OnOk};
ghost use Rattle.std.specs.String.{string_bytes};
ghost use Rattle.rip_report.specs.Stores.{bad_line, checked_line, fate_line, merged_line, misnamed_line, size_text, stored_line, version_text};

use crate::refusals::record_line;
use parity_store::RecordKind;
use rip_outside::{Oom, Text};
use std::alloc::{AllocError, Global};
use std::marker::Model;

/// The lines that are told of a store, so far. Each ends with a line feed.
#[derive(Drop)]
pub struct StoreLines {
    alloc: Global,
    text: String,
}

impl Model for StoreLines {
    ghost use Rattle.std.specs.Prelude.{List, ℕ};
    ghost use Rattle.std.specs.String.{string_bytes};

    ghost Value = { List ℕ };

    ghost view = { λ lines. string_bytes lines.text };
}

fn version_text(alloc: Global, name: &str, version: u8, npar: u16) -> Result<String, AllocError>
    ensures { IfOk result (λ made. string_bytes made ≡ version_text name.now version npar) }
{
    format!(in alloc; "{name} version {version} npar {npar}")
}

fn size_text(alloc: Global, sectors: u32, tracks: u32) -> Result<String, AllocError>
    ensures { IfOk result (λ made. string_bytes made ≡ size_text sectors tracks) }
{
    format!(in alloc; " sectors {sectors} tracks {tracks}\n")
}

fn stored_line(
    alloc: Global,
    name: &str,
    version: u8,
    npar: u16,
    sectors: u32,
    tracks: u32,
) -> Result<String, AllocError>
    ensures { IfOk result (λ made. string_bytes made ≡ stored_line name.now version npar sectors tracks) }
{
    let mut line = version_text(alloc, name, version, npar)?;
    let size = size_text(alloc, sectors, tracks)?;
    line.push_str(size.as_str())?;
    Ok(line)
}

fn bad_line(alloc: Global, name: &str, kind: RecordKind) -> Result<String, AllocError>
    ensures { IfOk result (λ made. string_bytes made ≡ bad_line name.now kind) }
{
    let refusal = record_line(alloc, kind)?;
    let mut line = String::from_str(alloc, name)?;
    line.push_str(" ")?;
    line.push_str(refusal.as_str())?;
    Ok(line)
}

fn misnamed_line(alloc: Global, name: &str, key: &str) -> Result<String, AllocError>
    ensures { IfOk result (λ made. string_bytes made ≡ misnamed_line name.now key.now) }
{
    format!(in alloc; "{name} misnamed {key}\n")
}

fn checked_line(alloc: Global, entries: u64, bad: u64) -> Result<String, AllocError>
    ensures { IfOk result (λ made. string_bytes made ≡ checked_line entries bad) }
{
    format!(in alloc; "checked {entries} bad {bad}\n")
}

fn fate_line(alloc: Global, word: &str, name: &str) -> Result<String, AllocError>
    ensures { IfOk result (λ made. string_bytes made ≡ fate_line word.now name.now) }
{
    format!(in alloc; "{word} {name}\n")
}

fn merged_line(
    alloc: Global,
    added: u64,
    same: u64,
    differs: u64,
    skipped: u64,
) -> Result<String, AllocError>
    ensures { IfOk result (λ made. string_bytes made ≡ merged_line added same differs skipped) }
{
    format!(in alloc; "merged {added} same {same} differs {differs} skipped {skipped}\n")
}

impl StoreLines {
    /// No lines. It takes no memory.
    pub fn new(alloc: Global) -> Self
        ensures { result ≡ [] }
    {
        StoreLines {
            alloc,
            text: String::new(alloc),
        }
    }

    // Adds a line that was made, unless memory was wanting for it.
    fn add(&mut self, line: Result<String, AllocError>) -> Result<(), Oom>
        ensures { OnOk result (IsOkAnd line (λ made. self.new ≡ self.old ++ string_bytes made)) }
    {
        let Ok(line) = line else {
            return Err(Oom);
        };
        match self.text.push_str(line.as_str()) {
            Ok(()) => Ok(()),
            Err(_) => Err(Oom),
        }
    }

    /// Adds the line of a good record: its version, its parity words of a column, and its disc's sectors and tracks.
    pub fn add_stored(
        &mut self,
        name: &str,
        version: u8,
        npar: u16,
        sectors: u32,
        tracks: u32,
    ) -> Result<(), Oom>
        ensures { OnOk result (self.new ≡ self.old ++ stored_line name.now version npar sectors tracks) }
    {
        let line = stored_line(self.alloc, name, version, npar, sectors, tracks);
        self.add(line)
    }

    /// Adds the line of a file that is no record.
    pub fn add_bad(&mut self, name: &str, kind: RecordKind) -> Result<(), Oom>
        ensures { OnOk result (self.new ≡ self.old ++ bad_line name.now kind) }
    {
        let line = bad_line(self.alloc, name, kind);
        self.add(line)
    }

    /// Adds the line of a record whose name isn't that of its key.
    pub fn add_misnamed(&mut self, name: &str, key: &str) -> Result<(), Oom>
        ensures { OnOk result (self.new ≡ self.old ++ misnamed_line name.now key.now) }
    {
        let line = misnamed_line(self.alloc, name, key);
        self.add(line)
    }

    /// Adds the line that says how many entries were looked at, and how many of them are bad.
    pub fn add_checked(&mut self, entries: u64, bad: u64) -> Result<(), Oom>
        ensures { OnOk result (self.new ≡ self.old ++ checked_line entries bad) }
    {
        let line = checked_line(self.alloc, entries, bad);
        self.add(line)
    }

    /// Adds the line that says in a word what becomes of an entry.
    pub fn add_fate(&mut self, word: &str, name: &str) -> Result<(), Oom>
        ensures { OnOk result (self.new ≡ self.old ++ fate_line word.now name.now) }
    {
        let line = fate_line(self.alloc, word, name);
        self.add(line)
    }

    /// Adds the line that says how many entries were added, are there already, are there otherwise, and were skipped.
    pub fn add_merged(
        &mut self,
        added: u64,
        same: u64,
        differs: u64,
        skipped: u64,
    ) -> Result<(), Oom>
        ensures { OnOk result (self.new ≡ self.old ++ merged_line added same differs skipped) }
    {
        let line = merged_line(self.alloc, added, same, differs, skipped);
        self.add(line)
    }

    /// The lines as a text. It takes no memory.
    pub fn done(self) -> Text
        ensures { result ≡ self }
    {
        Text::of(self.text)
    }
}
