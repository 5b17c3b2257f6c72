//! Lists of discs: the words of the commands that are to be run one after the other.
#![tactic(auto)]

mod fail;
mod lists;
mod reading;
#[cfg(test)]
mod tests;

pub use fail::{ListFail, ListKind};
pub use lists::{WordLists, Words};
pub use reading::read_list;
