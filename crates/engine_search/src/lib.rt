//! The offsets at which a rip agrees with a record, and the words to mend there.
#![tactic(auto)]

mod agreeing;
mod picking;
mod sealing;

pub use picking::{Picked, list_of, mend_of, pick_of};
pub use sealing::seal_at;
