//! The commands `list` and `check`: which records a store has, and which of them are bad.
#![tactic(auto)]

mod checking;
mod listing;
mod opening;

pub use checking::check;
pub use listing::list;
pub use opening::{look_stop, open_store};
