//! A folder that is watched: whoever watches is told how far reading goes, and changes nothing of what the folder does.
#![tactic(auto)]

mod watched;
mod watcher;

pub use watched::Watched;
pub use watcher::Watcher;
