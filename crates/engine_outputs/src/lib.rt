//! Several files of one command: whether their names are free, and how they are written, one after another.
#![tactic(auto)]

mod checking;
mod writing;

pub use checking::{check_outputs, part_names};
pub use writing::{WRITTEN_PIECE, write_files};
