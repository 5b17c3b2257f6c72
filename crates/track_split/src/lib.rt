//! A disc cut into its tracks, and the sheets of a disc in several files and in one.
#![tactic(auto)]

mod cutting;
mod naming;
mod pieces;
mod sheets;

pub use cutting::cut_tracks;
pub use naming::{join_names, split_names};
pub use pieces::Pieces;
pub use sheets::{join_sheet, split_sheet};
