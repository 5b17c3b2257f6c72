//! Runs the script of worked cases that stands on standard input: it makes files in a folder in memory, runs commands of
//! `rip` over them, and prints what each command answers and leaves. A line that can't be done is printed behind
//! `not done: `, and the lines after it are done.
//!
//! Words of a line are separated by one blank. A line that is empty or begins with `#` does nothing. The others are:
//!
//!     case WORDS              From here on the folder is empty and no call is listed to fail. Prints the line.
//!     NAME = MAKER ..         Puts a file into the folder, in place of one of that name (`makers` lists the makers). The
//!                             name may have blanks. A line with ` = ` is always this one.
//!     fail CALL N             The Nth call of the folder of this kind from here on fails: Size, ReadAt, Make, Append,
//!                             Sync, Rename or List.
//!     fail put N              The Nth put of the next run fails.
//!     run WORDS               Runs these words of the command line, of which `""` is an empty one. Prints the line and
//!                             the answer.
//!     each CALL WORDS         Runs the words with the first call of this kind failing, then with the second, and so on, up
//!                             to the first run that doesn't end by it. Prints the line and each answer that differs from
//!                             the one before.
//!     show NAMES              Prints of each file its name, its length and its SHA-256, or that there is none.
//!
//! An answer is `status N`, of a fault with its call, and then the text that went out; of a text of more than 1,000 bytes
//! its length and its SHA-256.
#![tactic(auto)]

mod answer;
mod makers;
mod script;

use script::Script;
use std::io::{self, BufRead, BufReader};

fn main(rt: HostRuntime) -> io::Result<()> {
    let alloc = rt.alloc();
    let mut script = Script::new(alloc);
    for line in BufReader::new(alloc, rt.reader())?.lines(alloc) {
        let line = line?;
        if script.follow(&rt, line.as_str()).is_err() {
            println!(rt; "not done: {line}")?;
        }
    }
    Ok(())
}
