//! A rip's AccurateRip sums at all offsets from -2,939 to 2,939 samples, compared with the response of a database.
#![tactic(auto)]

mod block;
mod edges;
mod ids;
mod listing;
mod naming;
mod picking;
mod prefix;
mod reading;
mod slider;

pub use block::{Block, Entries, Entry, Response};
pub use listing::{Match, Matches, V2Row, found};
pub use naming::response_name;
pub use picking::Picked;
pub use reading::{ResponseFail, read_response};
pub use slider::Slider;
