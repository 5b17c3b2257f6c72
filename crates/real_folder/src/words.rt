// The words for a call that failed.
use std::alloc::{AllocError, Global};
use std::io::{self, Eprint};

// The system's words, without its number for them.
fn words_of(alloc: Global, error: &io::Error) -> Result<String, AllocError> {
    let whole = format!(in alloc; "{error}")?;
    match whole.as_str().split_once(" (os error ") {
        Some((words, _)) => String::from_str(alloc, words),
        None => String::from_str(alloc, whole.as_str()),
    }
}

/// Prints why a call on a name failed, in one line of standard error. Where that can't be printed, nothing is lost
/// but the line.
pub fn print_failure<R: Eprint>(rt: &R, alloc: Global, name: &str, error: &io::Error) {
    let _ = match words_of(alloc, error) {
        Ok(words) => eprintln!(rt; "rip: {name}: {words}"),
        Err(_) => eprintln!(rt; "rip: {name}: {error}"),
    };
}
