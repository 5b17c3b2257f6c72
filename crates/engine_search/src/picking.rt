// The offset at which a rip is taken to stand, and the words to mend there.
ghost use Rattle.std.specs.Prelude.{◌≡◌, ◌*◌, ◌≤◌, ℕ, List, IfSome, IfOk, None, Some};
ghost use Rattle.std.specs.Option.{ForSome};
ghost use Rattle.rip_outside.specs.Reading.{OnlyReads};
ghost use Rattle.image_mender.specs.Joined.{AreInFiles, joined_words, word_count};
ghost use Rattle.column_map.specs.Columns.{IsOffset, IsSectorCount, WordTable, offsets, per_column};
ghost use Rattle.column_map.specs.Mending.{AreFixes};
ghost use Rattle.offset_search.specs.Near.{Fits, IsNear};
ghost use Rattle.parity_store.specs.Record.{parity_count, parity_rows};
ghost use Rattle.engine_steps.specs.Steps.{known_from, Meets, ReadsOnly, ReadsWithCause, Takes};
ghost use Rattle.engine_search.specs.Agreement.{AreAgreeing, TakesSealing};
ghost use Rattle.engine_search.specs.Picking.{IsNearAt, LieInColumns, Mends, Picks, StandFor};

use crate::agreeing::{agreeing, agrees_given};
use column_map::{Candidate, Fix, Shape};
use engine_steps::Stop;
use engine_words::sum_rip;
use gf16_field::Tables;
use image_mender::Image;
use offset_search::Search;
use offset_slide::Slides;
use parity_store::Parity;
use rip_outside::{Oom, Shelf};
use rip_report::Status;
use std::alloc::Global;
use syndrome_stream::Table;

/// An offset that was picked, with its counts, and the words to mend there.
#[derive(Drop)]
pub struct Picked {
    pub at: Candidate,
    pub fixes: Vec<Fix>,
}

// The given offset, where the rip agrees with the record there.
fn pick_given<const P: usize, S: Shelf>(
    alloc: Global,
    shelf: &mut S,
    search: &mut Search<P, Slides<P>>,
    image: &Image,
    shape: Shape,
    seal: Option<[u8; 32]>,
    d: i32,
) -> Result<Candidate, Stop>
    requires size { P ≤ 32 }
    requires inside { ForSome (S.held shelf.old) (AreInFiles image.now) }
    requires count { word_count image.now ≡ 1176 * shape }
    requires range { IsSectorCount shape }
    requires sectors { search.old.starts.sectors ≡ shape }
    requires stands { (y : List ℕ) × StandFor P search.old.starts y × IfSome (S.held shelf.old) (λ files. y ≡ joined_words image.now files) }
    requires offset { IsOffset d }
    ensures near { IfOk result (λ at. (y : List ℕ) → StandFor P search.old.starts y → IsNearAt P (per_column shape) y search.old.wanted at) }
    ensures picks { IfSome (S.held shelf.old) (λ files. Meets (λ at. at) result (Picks (Some d) (known_from shape (joined_words image.now files) P search.old.wanted seal))) }
    ensures starts { search.new.starts ≡ search.old.starts }
    ensures wanted { search.new.wanted ≡ search.old.wanted }
    ensures only { OnlyReads S.Shelf shelf.old shelf.new }
    ensures cause { ReadsWithCause (S.faults shelf.old) (S.faults shelf.new) result }
    ensures taken { IfSome (S.held shelf.old) (λ files. TakesSealing (Some d) (known_from shape (joined_words image.now files) P search.old.wanted seal) 0 (2 * word_count image.now) result (S.taken shelf.old) (S.taken shelf.new)) }
{
    match search.near_at(d) {
        Ok(near) => {
            if !agrees_given(alloc, shelf, search, image, shape, seal, d)? {
                return Err(Stop::Refused(Status::SealDiffers));
            }
            Ok(Candidate {
                offset: d,
                errors: near.errors,
                columns: near.columns,
            })
        }
        Err(not) => Err(Stop::Refused(Status::NotNear { column: not.column })),
    }
}

// The only offset at which the rip agrees with the record.
fn pick_sole<const P: usize, S: Shelf>(
    alloc: Global,
    shelf: &mut S,
    search: &mut Search<P, Slides<P>>,
    image: &Image,
    shape: Shape,
    seal: Option<[u8; 32]>,
) -> Result<Candidate, Stop>
    requires size { P ≤ 32 }
    requires inside { ForSome (S.held shelf.old) (AreInFiles image.now) }
    requires count { word_count image.now ≡ 1176 * shape }
    requires range { IsSectorCount shape }
    requires sectors { search.old.starts.sectors ≡ shape }
    requires stands { (y : List ℕ) × StandFor P search.old.starts y × IfSome (S.held shelf.old) (λ files. y ≡ joined_words image.now files) }
    ensures near { IfOk result (λ at. (y : List ℕ) → StandFor P search.old.starts y → IsNearAt P (per_column shape) y search.old.wanted at) }
    ensures picks { IfSome (S.held shelf.old) (λ files. Meets (λ at. at) result (Picks None (known_from shape (joined_words image.now files) P search.old.wanted seal))) }
    ensures starts { search.new.starts ≡ search.old.starts }
    ensures wanted { search.new.wanted ≡ search.old.wanted }
    ensures only { OnlyReads S.Shelf shelf.old shelf.new }
    ensures cause { ReadsWithCause (S.faults shelf.old) (S.faults shelf.new) result }
    ensures taken { IfSome (S.held shelf.old) (λ files. TakesSealing None (known_from shape (joined_words image.now files) P search.old.wanted seal) 0 (2 * word_count image.now) result (S.taken shelf.old) (S.taken shelf.new)) }
{
    let found = agreeing(alloc, shelf, search, image, shape, seal, 2)?;
    match found.as_slice() {
        [] => Err(Stop::Refused(Status::NoCandidate)),
        [at] => Ok(*at),
        [first, second, ..] => Err(Stop::Refused(Status::Several {
            first: first.offset,
            second: second.offset,
        })),
    }
}

fn pick_in<const P: usize, S: Shelf>(
    alloc: Global,
    shelf: &mut S,
    search: &mut Search<P, Slides<P>>,
    image: &Image,
    shape: Shape,
    seal: Option<[u8; 32]>,
    offset: Option<i32>,
) -> Result<Candidate, Stop>
    requires size { P ≤ 32 }
    requires inside { ForSome (S.held shelf.old) (AreInFiles image.now) }
    requires count { word_count image.now ≡ 1176 * shape }
    requires range { IsSectorCount shape }
    requires sectors { search.old.starts.sectors ≡ shape }
    requires stands { (y : List ℕ) × StandFor P search.old.starts y × IfSome (S.held shelf.old) (λ files. y ≡ joined_words image.now files) }
    requires offset { IfSome offset IsOffset }
    ensures near { IfOk result (λ at. (y : List ℕ) → StandFor P search.old.starts y → IsNearAt P (per_column shape) y search.old.wanted at) }
    ensures picks { IfSome (S.held shelf.old) (λ files. Meets (λ at. at) result (Picks offset (known_from shape (joined_words image.now files) P search.old.wanted seal))) }
    ensures starts { search.new.starts ≡ search.old.starts }
    ensures wanted { search.new.wanted ≡ search.old.wanted }
    ensures only { OnlyReads S.Shelf shelf.old shelf.new }
    ensures cause { ReadsWithCause (S.faults shelf.old) (S.faults shelf.new) result }
    ensures taken { IfSome (S.held shelf.old) (λ files. TakesSealing offset (known_from shape (joined_words image.now files) P search.old.wanted seal) 0 (2 * word_count image.now) result (S.taken shelf.old) (S.taken shelf.new)) }
{
    match offset {
        Some(d) => pick_given(alloc, shelf, search, image, shape, seal, d),
        None => pick_sole(alloc, shelf, search, image, shape, seal),
    }
}

// A list of its own of these fixes.
fn copy_of(alloc: Global, fixes: &[Fix]) -> Result<Vec<Fix>, Oom>
    ensures { IfOk result (λ copy. copy.items ≡ fixes.now) }
{
    match fixes.iter().copied().collect(alloc) {
        Ok(copy) => Ok(copy),
        Err(_) => Err(Oom),
    }
}

// A list of its own of the words to mend at an offset at which the rip is near the record.
fn fixes_at<const P: usize>(
    alloc: Global,
    search: &mut Search<P, Slides<P>>,
    d: i32,
) -> Result<Vec<Fix>, Oom>
    requires size { P ≤ 32 }
    requires offset { IsOffset d }
    requires near { (y : List ℕ) × StandFor P search.old.starts y × IsNear P (per_column search.old.starts.sectors) y d search.old.wanted }
    ensures { (y : List ℕ) → StandFor P search.old.starts y
        → IfOk result (λ fixes. (table : WordTable) × Fits P (per_column search.old.starts.sectors) y d search.old.wanted table
        × AreFixes (per_column search.old.starts.sectors) y d table fixes.items) }
{
    let Ok(fixes) = search.fixes(d) else {
        unreachable!();
    };
    let copy = copy_of(alloc, fixes)?;
    Ok(copy)
}

// A search over a rip, whose words are read once, for the stored parity.
#[tactic(auto, using(rip_outside::proofs::ReadingLaws::reads_twice))]
fn search_rip<const P: usize, S: Shelf>(
    alloc: Global,
    shelf: &mut S,
    image: &Image,
    shape: Shape,
    wanted: Table<P>,
) -> Result<Search<P, Slides<P>>, Stop>
    requires size { P ≤ 32 }
    requires inside { ForSome (S.held shelf.old) (AreInFiles image.now) }
    requires count { word_count image.now ≡ 1176 * shape }
    ensures stands { IfOk result (λ search. (y : List ℕ) × StandFor P search.starts y × IfSome (S.held shelf.old) (λ files. y ≡ joined_words image.now files)) }
    ensures sectors { IfOk result (λ search. search.starts.sectors ≡ shape) }
    ensures wanted { IfOk result (λ search. search.wanted ≡ wanted.entry) }
    ensures only { OnlyReads S.Shelf shelf.old shelf.new }
    ensures cause { ReadsOnly (S.faults shelf.old) (S.faults shelf.new) result }
    ensures taken { Takes (2 * word_count image.now) result (S.taken shelf.old) (S.taken shelf.new) }
{
    let field = Tables::new(alloc)?;
    let (table, edges) = sum_rip::<P, S>(alloc, shelf, image, shape)?;
    let slides = Slides::new(alloc, &field, table, edges)?;
    Ok(Search::new(alloc, field, slides, wanted)?)
}

fn pick<const P: usize, S: Shelf>(
    alloc: Global,
    shelf: &mut S,
    image: &Image,
    shape: Shape,
    wanted: Table<P>,
    seal: Option<[u8; 32]>,
    offset: Option<i32>,
) -> Result<Candidate, Stop>
    requires size { P ≤ 32 }
    requires inside { ForSome (S.held shelf.old) (AreInFiles image.now) }
    requires count { word_count image.now ≡ 1176 * shape }
    requires range { IsSectorCount shape }
    requires offset { IfSome offset IsOffset }
    ensures picks { IfSome (S.held shelf.old) (λ files. Meets (λ at. at) result (Picks offset (known_from shape (joined_words image.now files) P wanted.entry seal))) }
    ensures only { OnlyReads S.Shelf shelf.old shelf.new }
    ensures cause { ReadsWithCause (S.faults shelf.old) (S.faults shelf.new) result }
    ensures taken { IfSome (S.held shelf.old) (λ files. TakesSealing offset (known_from shape (joined_words image.now files) P wanted.entry seal) 1 (2 * word_count image.now) result (S.taken shelf.old) (S.taken shelf.new)) }
{
    let mut search = search_rip::<P, S>(alloc, shelf, image, shape, wanted)?;
    pick_in(alloc, shelf, &mut search, image, shape, seal, offset)
}

/// Picks the offset of a rip, whose words are read once, and once more for each seal that is compared.
pub fn pick_of<S: Shelf>(
    alloc: Global,
    shelf: &mut S,
    image: &Image,
    shape: Shape,
    parity: Parity,
    seal: Option<[u8; 32]>,
    offset: Option<i32>,
) -> Result<Candidate, Stop>
    requires inside { ForSome (S.held shelf.old) (AreInFiles image.now) }
    requires count { word_count image.now ≡ 1176 * shape }
    requires range { IsSectorCount shape }
    requires offset { IfSome offset IsOffset }
    ensures picks { IfSome (S.held shelf.old) (λ files. Meets (λ at. at) result (Picks offset (known_from shape (joined_words image.now files) (parity_count parity) (parity_rows parity) seal))) }
    ensures only { OnlyReads S.Shelf shelf.old shelf.new }
    ensures cause { ReadsWithCause (S.faults shelf.old) (S.faults shelf.new) result }
    ensures taken { IfSome (S.held shelf.old) (λ files. TakesSealing offset (known_from shape (joined_words image.now files) (parity_count parity) (parity_rows parity) seal) 1 (2 * word_count image.now) result (S.taken shelf.old) (S.taken shelf.new)) }
{
    match parity {
        Parity::Four(wanted) => pick::<4, S>(alloc, shelf, image, shape, wanted, seal, offset),
        Parity::Eight(wanted) => pick::<8, S>(alloc, shelf, image, shape, wanted, seal, offset),
        Parity::Sixteen(wanted) => pick::<16, S>(alloc, shelf, image, shape, wanted, seal, offset),
        Parity::ThirtyTwo(wanted) => pick::<32, S>(
            alloc, shelf, image, shape, wanted, seal, offset,
        ),
    }
}

fn mend<const P: usize, S: Shelf>(
    alloc: Global,
    shelf: &mut S,
    image: &Image,
    shape: Shape,
    wanted: Table<P>,
    seal: Option<[u8; 32]>,
    offset: Option<i32>,
) -> Result<Picked, Stop>
    requires size { P ≤ 32 }
    requires inside { ForSome (S.held shelf.old) (AreInFiles image.now) }
    requires count { word_count image.now ≡ 1176 * shape }
    requires range { IsSectorCount shape }
    requires offset { IfSome offset IsOffset }
    ensures picks { IfSome (S.held shelf.old) (λ files. Meets (λ picked. picked.at) result (Picks offset (known_from shape (joined_words image.now files) P wanted.entry seal))) }
    ensures fixes { IfSome (S.held shelf.old) (λ files. IfOk result (λ picked. Mends (known_from shape (joined_words image.now files) P wanted.entry seal) picked.at picked.fixes.items)) }
    ensures lie { IfOk result (λ picked. LieInColumns (per_column shape) picked.at.offset picked.fixes.items) }
    ensures only { OnlyReads S.Shelf shelf.old shelf.new }
    ensures cause { ReadsWithCause (S.faults shelf.old) (S.faults shelf.new) result }
    ensures taken { IfSome (S.held shelf.old) (λ files. TakesSealing offset (known_from shape (joined_words image.now files) P wanted.entry seal) 1 (2 * word_count image.now) result (S.taken shelf.old) (S.taken shelf.new)) }
{
    let mut search = search_rip::<P, S>(alloc, shelf, image, shape, wanted)?;
    let at = pick_in(alloc, shelf, &mut search, image, shape, seal, offset)?;
    let fixes = fixes_at(alloc, &mut search, at.offset)?;
    Ok(Picked { at, fixes })
}

/// Picks the offset of a rip, whose words are read once, and once more for each seal that is compared, and finds the words
/// to mend there.
pub fn mend_of<S: Shelf>(
    alloc: Global,
    shelf: &mut S,
    image: &Image,
    shape: Shape,
    parity: Parity,
    seal: Option<[u8; 32]>,
    offset: Option<i32>,
) -> Result<Picked, Stop>
    requires inside { ForSome (S.held shelf.old) (AreInFiles image.now) }
    requires count { word_count image.now ≡ 1176 * shape }
    requires range { IsSectorCount shape }
    requires offset { IfSome offset IsOffset }
    ensures picks { IfSome (S.held shelf.old) (λ files. Meets (λ picked. picked.at) result (Picks offset (known_from shape (joined_words image.now files) (parity_count parity) (parity_rows parity) seal))) }
    ensures fixes { IfSome (S.held shelf.old) (λ files. IfOk result (λ picked. Mends (known_from shape (joined_words image.now files) (parity_count parity) (parity_rows parity) seal) picked.at picked.fixes.items)) }
    ensures lie { IfOk result (λ picked. LieInColumns (per_column shape) picked.at.offset picked.fixes.items) }
    ensures only { OnlyReads S.Shelf shelf.old shelf.new }
    ensures cause { ReadsWithCause (S.faults shelf.old) (S.faults shelf.new) result }
    ensures taken { IfSome (S.held shelf.old) (λ files. TakesSealing offset (known_from shape (joined_words image.now files) (parity_count parity) (parity_rows parity) seal) 1 (2 * word_count image.now) result (S.taken shelf.old) (S.taken shelf.new)) }
{
    match parity {
        Parity::Four(wanted) => mend::<4, S>(alloc, shelf, image, shape, wanted, seal, offset),
        Parity::Eight(wanted) => mend::<8, S>(alloc, shelf, image, shape, wanted, seal, offset),
        Parity::Sixteen(wanted) => mend::<16, S>(alloc, shelf, image, shape, wanted, seal, offset),
        Parity::ThirtyTwo(wanted) => mend::<32, S>(
            alloc, shelf, image, shape, wanted, seal, offset,
        ),
    }
}

fn list<const P: usize, S: Shelf>(
    alloc: Global,
    shelf: &mut S,
    image: &Image,
    shape: Shape,
    wanted: Table<P>,
    seal: Option<[u8; 32]>,
) -> Result<Vec<Candidate>, Stop>
    requires size { P ≤ 32 }
    requires inside { ForSome (S.held shelf.old) (AreInFiles image.now) }
    requires count { word_count image.now ≡ 1176 * shape }
    requires range { IsSectorCount shape }
    ensures found { IfSome (S.held shelf.old) (λ files. IfOk result (λ found. AreAgreeing (known_from shape (joined_words image.now files) P wanted.entry seal) found.items)) }
    ensures only { OnlyReads S.Shelf shelf.old shelf.new }
    ensures cause { ReadsOnly (S.faults shelf.old) (S.faults shelf.new) result }
    ensures taken { IfSome (S.held shelf.old) (λ files. TakesSealing None (known_from shape (joined_words image.now files) P wanted.entry seal) 1 (2 * word_count image.now) result (S.taken shelf.old) (S.taken shelf.new)) }
{
    let mut search = search_rip::<P, S>(alloc, shelf, image, shape, wanted)?;
    agreeing(alloc, shelf, &mut search, image, shape, seal, usize::MAX)
}

/// All offsets at which a rip, whose words are read once, and once more for each seal that is compared, agrees with the
/// record.
pub fn list_of<S: Shelf>(
    alloc: Global,
    shelf: &mut S,
    image: &Image,
    shape: Shape,
    parity: Parity,
    seal: Option<[u8; 32]>,
) -> Result<Vec<Candidate>, Stop>
    requires inside { ForSome (S.held shelf.old) (AreInFiles image.now) }
    requires count { word_count image.now ≡ 1176 * shape }
    requires range { IsSectorCount shape }
    ensures found { IfSome (S.held shelf.old) (λ files. IfOk result (λ found. AreAgreeing (known_from shape (joined_words image.now files) (parity_count parity) (parity_rows parity) seal) found.items)) }
    ensures only { OnlyReads S.Shelf shelf.old shelf.new }
    ensures cause { ReadsOnly (S.faults shelf.old) (S.faults shelf.new) result }
    ensures taken { IfSome (S.held shelf.old) (λ files. TakesSealing None (known_from shape (joined_words image.now files) (parity_count parity) (parity_rows parity) seal) 1 (2 * word_count image.now) result (S.taken shelf.old) (S.taken shelf.new)) }
{
    match parity {
        Parity::Four(wanted) => list::<4, S>(alloc, shelf, image, shape, wanted, seal),
        Parity::Eight(wanted) => list::<8, S>(alloc, shelf, image, shape, wanted, seal),
        Parity::Sixteen(wanted) => list::<16, S>(alloc, shelf, image, shape, wanted, seal),
        Parity::ThirtyTwo(wanted) => list::<32, S>(alloc, shelf, image, shape, wanted, seal),
    }
}
