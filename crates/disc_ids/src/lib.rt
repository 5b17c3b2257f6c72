//! The ids by which databases know an audio CD, and the key under which a store keeps it: each is a function of the
//! disc's layout.
#![tactic(auto)]

mod digest;
mod numbers;
mod places;
mod texts;

pub use digest::{Id28, musicbrainz_id, store_key};
pub use numbers::{accurip_ids, freedb_id};
