//! Discs that are made of a seed, late and damaged rips of them, and whether a mended rip has a disc's words.
#![tactic(auto)]

mod compared;
mod damaged;
mod generated;

ghost use Rattle.std.specs.Prelude.{ℕ, ◌+◌, ◌*◌, ◌≤◌, List, length, ℤ};
ghost use Rattle.column_map.specs.Columns.{IsOffset, stride};
ghost use Rattle.trial_disc.specs.Compared.{SameCovered};
ghost use Rattle.trial_disc.specs.Damaged.{late};

pub use compared::same_covered;
pub use damaged::made_rip;
pub use generated::disc_words;

/// The law of late rips: at the offset by which it is late, a rip has the disc's words where columns have words.
pub fn laws()
    ensures { (c : ℕ) (d : ℤ) (disc : List ℕ) → IsOffset d → (c + 2) * stride ≤ length disc → SameCovered c d (late disc d) disc }
{}
