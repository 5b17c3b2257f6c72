//! All that the program prints, and the numbers with which it ends.
#![tactic(auto)]

mod batch;
mod kinds;
mod matches;
mod refusals;
mod report;
mod status;
mod stores;
mod sums;
mod texts;
mod trial;

pub use batch::{batch_line, disc_part};
pub use refusals::refusal_text;
pub use report::{Report, TrialResult, text_of};
pub use status::{ResponseKind, Status};
pub use stores::StoreLines;
