// The lines of a script, and the folder over which they run.
use crate::answer::{Answer, print_digest};
use crate::makers::made;
use rip_engine::run;
use rip_memory::{MemoryShelf, MemorySink, fill};
use rip_outside::ShelfCall;
use std::alloc::{AllocError, Global};
use std::fmt::Debug;
use std::io;

// The room of the output of a run, in bytes.
const ROOM: u32 = 1_048_576;

// The most calls of a kind that are made to fail in turn.
const MOST_CALLS: u32 = 1_000_000;

/// A line that can't be done.
#[derive(Drop)]
pub struct NotDone;

impl<E: Debug + Drop> From<E> for NotDone {
    fn from(_error: E) -> NotDone {
        NotDone
    }
}

/// Where a script stands: the folder of its case, and which put of the next run fails, or none at 0.
#[derive(Drop)]
pub struct Script {
    alloc: Global,
    files: MemoryShelf,
    failing_put: u32,
}

// The words of a command line, of which `""` is an empty one.
fn words_of(alloc: Global, line: &str) -> Result<Vec<String>, AllocError> {
    let mut words = Vec::new(alloc);
    for word in line.split(' ').filter(|word| !word.is_empty()) {
        let word = if word == "\"\"" { "" } else { word };
        words.push(String::from_str(alloc, word)?)?;
    }
    Ok(words)
}

// The kind of call that has this name.
fn call_named(name: &str) -> Result<ShelfCall, NotDone> {
    match name {
        "Size" => Ok(ShelfCall::Size),
        "ReadAt" => Ok(ShelfCall::ReadAt),
        "Make" => Ok(ShelfCall::Make),
        "Append" => Ok(ShelfCall::Append),
        "Sync" => Ok(ShelfCall::Sync),
        "Rename" => Ok(ShelfCall::Rename),
        "List" => Ok(ShelfCall::List),
        _ => Err(NotDone),
    }
}

// A line's first word, and what stands behind the blank after it.
fn first_word(line: &str) -> (&str, &str) {
    line.split_once(' ').unwrap_or((line, ""))
}

impl Script {
    /// An empty folder, and no call that is listed to fail.
    pub fn new(alloc: Global) -> Self {
        Script {
            alloc,
            files: MemoryShelf::new(alloc),
            failing_put: 0,
        }
    }

    // Runs these words over the folder, with an output of its own.
    fn answer(&mut self, words: &[String]) -> Result<Answer, NotDone> {
        let mut out = MemorySink::new(self.alloc, ROOM)?;
        out.fail_on(self.failing_put)?;
        self.failing_put = 0;
        let status = run(self.alloc, words, &mut self.files, &mut out);
        Ok(Answer { status, out })
    }

    // Runs these words with the first call of this kind failing, then with the second, and so on, up to the first run
    // that doesn't end by it. Prints each answer that differs from the one before.
    fn fail_each(
        &mut self,
        rt: &impl Print,
        call: ShelfCall,
        words: &[String],
    ) -> Result<(), NotDone> {
        let mut before: Option<Answer> = None;
        for nth in 1..MOST_CALLS {
            self.files.fail_on(call, nth)?;
            let answer = self.answer(words)?;
            let is_last = answer.failed_call() != Some(call);
            if is_last || !before.is_some_and(|before| before.is_same(&answer)) {
                answer.print(rt)?;
            }
            if is_last {
                return Ok(());
            }
            before = Some(answer);
        }
        Err(NotDone)
    }

    // Prints what these names hold.
    fn show(&self, rt: &impl Print, names: &str) -> io::Result<()> {
        for name in names.split(' ') {
            print!(rt; "{name} ")?;
            match self.files.bytes(name) {
                Some(bytes) => print_digest(rt, bytes)?,
                None => println!(rt; "none")?,
            }
        }
        Ok(())
    }

    // Lists a call of the folder, or a put of the next run, that is to fail.
    fn fail(&mut self, call: &str, nth: u32) -> Result<(), NotDone> {
        if call == "put" {
            self.failing_put = nth;
        } else {
            self.files.fail_on(call_named(call)?, nth)?;
        }
        Ok(())
    }

    // Puts a file into the folder.
    fn make(&mut self, name: &str, maker: &str) -> Result<(), NotDone> {
        let bytes = made(self.alloc, &self.files, maker)?;
        fill(&mut self.files, name, &bytes)?;
        Ok(())
    }

    // Does a line that runs words, after printing it.
    fn run_line(&mut self, rt: &impl Print, line: &str) -> Result<(), NotDone> {
        println!(rt; "{line}")?;
        let (kind, rest) = first_word(line);
        if kind == "run" {
            let answer = self.answer(&words_of(self.alloc, rest)?)?;
            answer.print(rt)?;
            Ok(())
        } else {
            let (call, words) = first_word(rest);
            self.fail_each(rt, call_named(call)?, &words_of(self.alloc, words)?)
        }
    }

    /// Does a line, and prints what it says.
    pub fn follow(&mut self, rt: &impl Print, line: &str) -> Result<(), NotDone> {
        if line.is_empty() || line.starts_with('#') {
            return Ok(());
        }
        if let Some((name, maker)) = line.split_once(" = ") {
            return self.make(name, maker);
        }
        let (kind, rest) = first_word(line);
        match kind {
            "case" => {
                *self = Script::new(self.alloc);
                println!(rt; "\n{line}")?;
                Ok(())
            }
            "run" | "each" => self.run_line(rt, line),
            "fail" => {
                let (call, nth) = first_word(rest);
                self.fail(call, nth.parse()?)
            }
            "show" => Ok(self.show(rt, rest)?),
            _ => Err(NotDone),
        }
    }
}
