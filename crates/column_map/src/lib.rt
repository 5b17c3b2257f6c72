//! The columns of an audio image: which words of it are covered, and where a rip at an offset has them.
#![tactic(auto)]

mod candidate;
mod npar;
mod shape;

ghost use Rattle.std.specs.Prelude.{◌≡◌, ℕ, ◌+◌, ◌*◌, ◌<◌, ◌≤◌, List, length, slice_range, ℤ, pos, ◌+ℤ◌, ◌*ℤ◌};
ghost use Rattle.column_map.specs.Columns.{IsOffset, WordTable, moved, place, rip_word, stride, table_words};

pub use candidate::{Candidate, CandidateList, Fix};
pub use npar::Npar;
pub use shape::{STRIDE, Shape};

/// The laws of places. An offset of the range moves no word from the second stride on past the front, so nothing is cut
/// off where the place of a word is its number and twice the offset. Where a rip at an offset has a table's words in all
/// columns, its words from the first of these places on are the table's words, in one run.
pub fn laws()
    ensures moves { (d : ℤ) (i : ℕ) → IsOffset d → stride ≤ i → pos (moved d i) ≡ pos i +ℤ pos 2 *ℤ d }
    ensures words { (c : ℕ) (d : ℤ) (table : WordTable) (rip : List ℕ) → IsOffset d → place d 0 0 + c * stride ≤ length rip → ((j k : ℕ) → j < stride → k < c → rip_word rip d j k ≡ table j k)
        → slice_range rip (place d 0 0) (place d 0 0 + c * stride) ≡ table_words c table }
{}
