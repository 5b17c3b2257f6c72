//! Cue sheets: the files and tracks of a disc as a text names them.
#![tactic(auto)]

mod command;
mod fail;
mod parts;
mod progress;
mod reading;
mod sheet;
mod text;

pub use fail::{CueFail, CueKind};
pub use reading::read_cue;
pub use sheet::{Cue, CueTrack, CueTracks};
