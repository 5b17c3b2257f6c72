//! Cases that a script of commands can't say: readers by themselves, images that are read and written in pieces, how much
//! a run reads, what a stop leaves, and a text that no run prints.
#![tactic(auto)]

#[cfg(test)]
mod crashes;
#[cfg(test)]
mod made;
#[cfg(test)]
mod mending;
#[cfg(test)]
mod pieces;
#[cfg(test)]
mod readers;
#[cfg(test)]
mod runs;
#[cfg(test)]
mod texts;
