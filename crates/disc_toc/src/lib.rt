//! Layouts of audio CDs: the pregap, the starts of the tracks and the sectors of a disc.
#![tactic(auto)]

mod difference;
mod joined;
mod layout;
mod reading;

pub use difference::{Differs, LayoutPart, first_difference};
pub use joined::layout_of;
pub use layout::{Layout, Starts99};
pub use reading::{LayoutFail, LayoutKind, one_track};
