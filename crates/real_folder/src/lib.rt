//! The real folder and standard output, which tell no content: the calls on the system, what a run remembers of the
//! names that it was given, and the words of the system for a call that failed.
#![tactic(auto)]

mod file_state;
mod folder;
mod known_names;
mod reading;
mod real_shelf;
mod real_sink;
#[cfg(test)]
mod tests;
mod words;
mod writing;

pub use real_shelf::RealShelf;
pub use real_sink::RealSink;
