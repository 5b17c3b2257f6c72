//! The parity of an image at every place at which a column of a rip may begin, from one pass over its words: each start
//! is a stride apart from one of the image's own columns, and is had from it by one step.
#![tactic(auto)]

mod edges;
mod slides;
mod steps;

pub use edges::Edges;
pub use slides::Slides;
pub use steps::{down, up};

// A stride, in words.
const STRIDE: usize = column_map::STRIDE as usize;
