//! What the commands share: the steps before a command's own work, what a command comes to, and what it leaves.
#![tactic(auto)]

mod buffers;
mod comparing;
mod files;
mod replacing;
mod steps;

pub use buffers::{PIECE, zero_bytes, zero_words};
pub use comparing::{Compared, compare};
pub use files::{Found, read_up_to};
pub use replacing::replace_out;
pub use steps::{
    Answer, Stop, check_free, check_layout, find_record, is_among, is_read, mend_stop, open_input,
    open_measured, part_name, put_stop, write_out,
};
