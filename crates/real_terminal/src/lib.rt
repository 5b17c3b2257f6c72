//! Progress on a terminal: one line of standard error that tells how far reading goes. It is written over as reading goes
//! on, and cleared before anything else is printed. Where standard error is no terminal, nothing is ever written.
#![tactic(auto)]

mod line;
mod pace;
mod reading_line;
mod screen;
#[cfg(test)]
mod tests;

pub use reading_line::{ReadingLine, can_draw};
pub use screen::Screen;
