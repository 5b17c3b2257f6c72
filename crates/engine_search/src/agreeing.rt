// The offsets at which a rip agrees with a record: it is near there, and the words that fit have the record's seal.
ghost use Rattle.std.specs.Prelude.{◌≡◌, ◌⊎◌, ◌+◌, ◌*◌, ◌%◌, ◌<◌, ◌≤◌, ◌↔◌, ◌++◌, ◌∷◌, [], All, ℕ, List, IfSome, IfOk, OnOk, IsTrue, None, Some, length, vec_len};
ghost use Rattle.std.specs.Option.{ForSome};
ghost use Rattle.rip_outside.specs.Reading.{OnlyReads};
ghost use Rattle.image_mender.specs.Joined.{AreInFiles, joined_words, word_count};
ghost use Rattle.column_map.specs.Columns.{IsOffset, IsSectorCount, offsets, per_column};
ghost use Rattle.offset_search.specs.Near.{IsNear};
ghost use Rattle.engine_steps.specs.Steps.{known_from, ReadsOnly, Takes};
ghost use Rattle.engine_search.specs.Agreement.{Agrees, AreFirstAgreeing, TakesSealing};
ghost use Rattle.engine_search.specs.Picking.{IsNearAt, LooksAgreeing, StandFor, seal_cost};

use crate::sealing::seal_at;
use column_map::{Candidate, Shape};
use engine_steps::{PIECE, Stop, zero_bytes, zero_words};
use image_mender::{Image, RunSeal};
use offset_search::Search;
use offset_slide::Slides;
use rip_outside::Shelf;
use std::alloc::Global;

// The last offset of the range; the first is as far below 0.
const LAST: i32 = 5_879;

// Whether the words that fit at an offset, at which the rip is near the record, have this seal. They are read anew.
fn has_seal<const P: usize, S: Shelf>(
    shelf: &mut S,
    search: &mut Search<P, Slides<P>>,
    image: &Image,
    shape: Shape,
    seal: &[u8; 32],
    d: i32,
    words: &mut [u16],
    bytes: &mut [u8],
    kept: &mut Option<RunSeal>,
) -> Result<bool, Stop>
    requires size { P ≤ 32 }
    requires offset { IsOffset d }
    requires inside { ForSome (S.held shelf.old) (AreInFiles image.now) }
    requires count { word_count image.now ≡ 1176 * shape }
    requires range { IsSectorCount shape }
    requires sectors { search.old.starts.sectors ≡ shape }
    requires room { 0 < length words.old }
    requires bytes { 2 * length words.old ≤ length bytes.old }
    requires pairs { length bytes.old % 2 ≡ 0 }
    requires stands { (y : List ℕ) × StandFor P search.old.starts y }
    requires near { (y : List ℕ) → StandFor P search.old.starts y → IsNear P (per_column shape) y d search.old.wanted }
    ensures has { (y : List ℕ) → StandFor P search.old.starts y → IfSome (S.held shelf.old) (λ files. y ≡ joined_words image.now files → IfOk result (λ has. IsTrue has ↔ Agrees (known_from shape y P search.old.wanted (Some seal.now)) d)) }
    ensures starts { search.new.starts ≡ search.old.starts }
    ensures wanted { search.new.wanted ≡ search.old.wanted }
    ensures only { OnlyReads S.Shelf shelf.old shelf.new }
    ensures cause { ReadsOnly (S.faults shelf.old) (S.faults shelf.new) result }
    ensures taken { Takes (2 * word_count image.now) result (S.taken shelf.old) (S.taken shelf.new) }
{
    let Ok(fixes) = search.fixes(d) else {
        unreachable!();
    };
    let found = seal_at(shelf, image, shape, d, fixes, words, bytes, kept)?;
    Ok(found == *seal)
}

// Whether the rip agrees with the record at an offset at which it is near. Without a seal it does.
fn agrees_at<const P: usize, S: Shelf>(
    shelf: &mut S,
    search: &mut Search<P, Slides<P>>,
    image: &Image,
    shape: Shape,
    seal: Option<[u8; 32]>,
    d: i32,
    words: &mut [u16],
    bytes: &mut [u8],
    kept: &mut Option<RunSeal>,
) -> Result<bool, Stop>
    requires size { P ≤ 32 }
    requires offset { IsOffset d }
    requires inside { ForSome (S.held shelf.old) (AreInFiles image.now) }
    requires count { word_count image.now ≡ 1176 * shape }
    requires range { IsSectorCount shape }
    requires sectors { search.old.starts.sectors ≡ shape }
    requires room { 0 < length words.old }
    requires bytes { 2 * length words.old ≤ length bytes.old }
    requires pairs { length bytes.old % 2 ≡ 0 }
    requires stands { (y : List ℕ) × StandFor P search.old.starts y }
    requires near { (y : List ℕ) → StandFor P search.old.starts y → IsNear P (per_column shape) y d search.old.wanted }
    ensures agrees { (y : List ℕ) → StandFor P search.old.starts y → IfSome (S.held shelf.old) (λ files. y ≡ joined_words image.now files → IfOk result (λ agrees. IsTrue agrees ↔ Agrees (known_from shape y P search.old.wanted seal) d)) }
    ensures starts { search.new.starts ≡ search.old.starts }
    ensures wanted { search.new.wanted ≡ search.old.wanted }
    ensures only { OnlyReads S.Shelf shelf.old shelf.new }
    ensures cause { ReadsOnly (S.faults shelf.old) (S.faults shelf.new) result }
    ensures taken { Takes (seal_cost seal (2 * word_count image.now)) result (S.taken shelf.old) (S.taken shelf.new) }
{
    match seal {
        None => Ok(true),
        Some(seal) => has_seal(shelf, search, image, shape, &seal, d, words, bytes, kept),
    }
}

// Puts an offset at which the rip is near to those that were found, where it agrees with the record.
fn look_at<const P: usize, S: Shelf>(
    shelf: &mut S,
    search: &mut Search<P, Slides<P>>,
    image: &Image,
    shape: Shape,
    seal: Option<[u8; 32]>,
    at: Candidate,
    words: &mut [u16],
    bytes: &mut [u8],
    kept: &mut Option<RunSeal>,
    found: &mut Vec<Candidate>,
) -> Result<(), Stop>
    requires size { P ≤ 32 }
    requires offset { IsOffset at.offset }
    requires inside { ForSome (S.held shelf.old) (AreInFiles image.now) }
    requires count { word_count image.now ≡ 1176 * shape }
    requires range { IsSectorCount shape }
    requires sectors { search.old.starts.sectors ≡ shape }
    requires room { 0 < length words.old }
    requires bytes { 2 * length words.old ≤ length bytes.old }
    requires pairs { length bytes.old % 2 ≡ 0 }
    requires stands { (y : List ℕ) × StandFor P search.old.starts y }
    requires near { (y : List ℕ) → StandFor P search.old.starts y → IsNear P (per_column shape) y at.offset search.old.wanted }
    ensures looks { (y : List ℕ) → StandFor P search.old.starts y → IfSome (S.held shelf.old) (λ files. y ≡ joined_words image.now files → OnOk result (LooksAgreeing (known_from shape y P search.old.wanted seal) at found.old.items found.new.items)) }
    ensures adds { OnOk result ((found.new.items ≡ found.old.items) ⊎ (found.new.items ≡ found.old.items ++ at ∷ [])) }
    ensures len { vec_len found.new ≤ vec_len found.old + 1 }
    ensures starts { search.new.starts ≡ search.old.starts }
    ensures wanted { search.new.wanted ≡ search.old.wanted }
    ensures only { OnlyReads S.Shelf shelf.old shelf.new }
    ensures cause { ReadsOnly (S.faults shelf.old) (S.faults shelf.new) result }
    ensures taken { Takes (seal_cost seal (2 * word_count image.now)) result (S.taken shelf.old) (S.taken shelf.new) }
{
    if !agrees_at(
        shelf, search, image, shape, seal, at.offset, words, bytes, kept,
    )? {
        return Ok(());
    }
    match found.push(at) {
        Ok(()) => Ok(()),
        Err(_) => Err(Stop::Oom),
    }
}

/// The first offsets of the range at which a rip agrees with a record, at most `limit`, with the counts of its words that
/// differ. The rip is read again at each near offset, where the record has a seal.
pub fn agreeing<const P: usize, S: Shelf>(
    alloc: Global,
    shelf: &mut S,
    search: &mut Search<P, Slides<P>>,
    image: &Image,
    shape: Shape,
    seal: Option<[u8; 32]>,
    limit: usize,
) -> Result<Vec<Candidate>, Stop>
    requires size { P ≤ 32 }
    requires inside { ForSome (S.held shelf.old) (AreInFiles image.now) }
    requires count { word_count image.now ≡ 1176 * shape }
    requires range { IsSectorCount shape }
    requires sectors { search.old.starts.sectors ≡ shape }
    requires stands { (y : List ℕ) × StandFor P search.old.starts y × IfSome (S.held shelf.old) (λ files. y ≡ joined_words image.now files) }
    ensures near { IfOk result (λ found. (y : List ℕ) → StandFor P search.old.starts y → All (IsNearAt P (per_column shape) y search.old.wanted) found.items) }
    ensures found { IfSome (S.held shelf.old) (λ files. IfOk result (λ found. AreFirstAgreeing limit (known_from shape (joined_words image.now files) P search.old.wanted seal) found.items)) }
    ensures starts { search.new.starts ≡ search.old.starts }
    ensures wanted { search.new.wanted ≡ search.old.wanted }
    ensures only { OnlyReads S.Shelf shelf.old shelf.new }
    ensures cause { ReadsOnly (S.faults shelf.old) (S.faults shelf.new) result }
    ensures taken { IfSome (S.held shelf.old) (λ files. TakesSealing None (known_from shape (joined_words image.now files) P search.old.wanted seal) 0 (2 * word_count image.now) result (S.taken shelf.old) (S.taken shelf.new)) }
{
    let mut words = zero_words(alloc, PIECE)?;
    let mut bytes = zero_bytes(alloc, 2 * PIECE)?;
    let mut kept = None;
    let mut found = Vec::new(alloc);
    let mut from = -LAST;
    'offsets: while from <= LAST && found.len() < limit {
        let Some(at) = search.next_near(from) else {
            return Ok(found);
        };
        look_at(
            shelf, search, image, shape, seal, at, &mut words, &mut bytes, &mut kept, &mut found,
        )?;
        from = at.offset + 1;
    }
    Ok(found)
}

/// Whether the rip agrees with the record at the given offset, at which it is near.
pub fn agrees_given<const P: usize, S: Shelf>(
    alloc: Global,
    shelf: &mut S,
    search: &mut Search<P, Slides<P>>,
    image: &Image,
    shape: Shape,
    seal: Option<[u8; 32]>,
    d: i32,
) -> Result<bool, Stop>
    requires size { P ≤ 32 }
    requires offset { IsOffset d }
    requires inside { ForSome (S.held shelf.old) (AreInFiles image.now) }
    requires count { word_count image.now ≡ 1176 * shape }
    requires range { IsSectorCount shape }
    requires sectors { search.old.starts.sectors ≡ shape }
    requires stands { (y : List ℕ) × StandFor P search.old.starts y }
    requires near { (y : List ℕ) → StandFor P search.old.starts y → IsNear P (per_column shape) y d search.old.wanted }
    ensures agrees { (y : List ℕ) → StandFor P search.old.starts y → IfSome (S.held shelf.old) (λ files. y ≡ joined_words image.now files → IfOk result (λ agrees. IsTrue agrees ↔ Agrees (known_from shape y P search.old.wanted seal) d)) }
    ensures starts { search.new.starts ≡ search.old.starts }
    ensures wanted { search.new.wanted ≡ search.old.wanted }
    ensures only { OnlyReads S.Shelf shelf.old shelf.new }
    ensures cause { ReadsOnly (S.faults shelf.old) (S.faults shelf.new) result }
    ensures taken { Takes (seal_cost seal (2 * word_count image.now)) result (S.taken shelf.old) (S.taken shelf.new) }
{
    let mut words = zero_words(alloc, PIECE)?;
    let mut bytes = zero_bytes(alloc, 2 * PIECE)?;
    let mut kept = None;
    agrees_at(
        shelf, search, image, shape, seal, d, &mut words, &mut bytes, &mut kept,
    )
}
