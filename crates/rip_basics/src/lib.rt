//! What every crate speaks of: names of files, lists of them, texts, and want of memory.
#![tactic(auto)]

mod oom;
mod text;

pub use oom::Oom;
pub use text::{Name, Names, Text};
