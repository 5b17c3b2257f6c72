//! Stored parity: the bytes of a record, its name, how it is read and found, and how a file is put under its name.
#![tactic(auto)]

mod finding;
mod naming;
mod pieces;
mod reading;
mod record;
mod storing;

ghost use Rattle.std.specs.Prelude.{◌≡◌, ◌↔◌, ℕ, List, Ok};
ghost use Rattle.rip_outside.specs.Files.{AreBytes};
ghost use Rattle.parity_store.specs.Reading.{IsStorable, Stored, record_reading};
ghost use Rattle.parity_store.specs.Record.{record_bytes_of};

pub use finding::{FindFail, find};
pub use naming::{id_text, record_name, stored_name};
pub use reading::{RecordFail, RecordKind, read_record};
pub use record::{Parity, Record, record_bytes};
pub use storing::{PutFail, put, replace};

/// The law of a record's bytes: bytes are read as a record exactly where they are that record's own bytes and it may be
/// stored. So what was written is read again, and no other bytes are read as that record.
pub fn laws()
    ensures one_spelling { (bytes : List ℕ) (stored : Stored) → AreBytes bytes → (record_reading bytes ≡ Ok stored) ↔ ((bytes ≡ record_bytes_of stored.toc stored.count stored.rows stored.seal) × IsStorable stored) }
{}
