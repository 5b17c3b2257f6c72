//! The upkeep of stores: which files of a folder are its records, and whether each of them is good.
#![tactic(auto)]

mod listing;
mod looking;

pub use listing::{EntriesFail, entries};
pub use looking::{LookFail, MOST_BYTES, Seen, copy_good, look};
