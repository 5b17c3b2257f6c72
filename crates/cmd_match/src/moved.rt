// The sums of a rip's tracks: v1 at all offsets from one reading of its words, and both at given ones.
ghost use Rattle.std.specs.Prelude.{◌≡◌, ◌-◌, ◌+◌, ◌*◌, ◌<◌, ℕ, List, All, length, replicate, IfSome, IfOk};
ghost use Rattle.std.specs.Option.{ForSome};
ghost use Rattle.rip_outside.specs.Reading.{OnlyReads};
ghost use Rattle.disc_toc.specs.Toc.{toc_of};
ghost use Rattle.accurip_match.specs.Matching.{v2_row};
ghost use Rattle.accurip_match.specs.Offsets.{IsMatchOffset};
ghost use Rattle.accurip_match.specs.Shifted.{shifted_sums};
ghost use Rattle.accurip_match.specs.Slider.{SliderStandsFor};
ghost use Rattle.image_mender.specs.Joined.{AreInFiles, joined_words, word_count};
ghost use Rattle.engine_sums.specs.Tracks.{begin_of};
ghost use Rattle.cmd_match.specs.Span.{moved_rows};
ghost use Rattle.engine_steps.specs.Steps.{ReadsOnly, Takes};

use crate::span::{MOST_SILENCE, Span};
use accurip_match::{Slider, V2Row};
use accurip_sums::{SumList, Sums, TrackSum};
use disc_toc::Layout;
use engine_steps::{PIECE, Stop, zero_bytes, zero_words};
use engine_sums::{begin_of, sum_words};
use image_mender::Image;
use rip_outside::{Shelf, ShelfCall};
use std::alloc::Global;
use std::marker::Model;

// The words of a sector.
const SECTOR_WORDS: u64 = 1176;

/// The sums of all tracks at some offsets. Contracts see them as the list.
#[derive(Drop)]
pub struct Rows {
    list: Vec<V2Row>,
}

impl Model for Rows {
    ghost use Rattle.std.specs.Prelude.{List};
    ghost use Rattle.accurip_match.specs.declared.listing.V2Row.{V2Row};

    ghost Value = { List V2Row };

    ghost view = { λ rows. rows.list.items };
}

impl Rows {
    // The rows of this list.
    fn of(list: Vec<V2Row>) -> Self
        ensures { result ≡ list.items }
    {
        Rows { list }
    }

    /// The rows. It takes no memory.
    pub fn as_slice(&self) -> &[V2Row]
        ensures { result.now ≡ self.now }
    {
        self.list.as_slice()
    }
}

/// Reads the rip's words once, in pieces, into a slider.
pub fn slide_over<S: Shelf>(
    alloc: Global,
    shelf: &mut S,
    layout: &Layout,
    image: &Image,
) -> Result<Slider, Stop>
    requires inside { ForSome (S.held shelf.old) (AreInFiles image.now) }
    requires count { word_count image.now ≡ 1176 * layout.now.sectors }
    ensures toc { IfOk result (λ slider. slider.toc ≡ toc_of layout.now) }
    ensures whole { IfOk result (λ slider. slider.position ≡ 588 * layout.now.sectors) }
    ensures stands { IfOk result (λ slider. (y : List ℕ) × SliderStandsFor slider y × IfSome (S.held shelf.old) (λ files. y ≡ joined_words image.now files)) }
    ensures only { OnlyReads S.Shelf shelf.old shelf.new }
    ensures cause { ReadsOnly (S.faults shelf.old) (S.faults shelf.new) result }
    ensures taken { Takes (2 * word_count image.now) result (S.taken shelf.old) (S.taken shelf.new) }
{
    let mut slider = Slider::new(alloc, layout)?;
    let mut scratch = zero_bytes(alloc, 2 * PIECE)?;
    let mut words = zero_words(alloc, PIECE)?;
    let all = image.words();
    let mut at = 0;
    'pieces: while at < all {
        let count = (all - at).min(PIECE as u64) as usize;
        let piece = &mut words[..count];
        let Ok(()) = image.read(shelf, at, piece, &mut scratch) else {
            return Err(Stop::ReadFault {
                call: ShelfCall::ReadAt,
            });
        };
        slider.absorb(piece);
        at += count as u64;
    }
    Ok(slider)
}

// Sums the track before which there are `i` at an offset. Where it reaches past the rip there is silence.
fn sum_moved<S: Shelf>(
    shelf: &mut S,
    layout: &Layout,
    image: &Image,
    i: usize,
    offset: i32,
    silence: &[u16],
    words: &mut [u16],
    scratch: &mut [u8],
) -> Result<Sums, Stop>
    requires track { i < length layout.now.starts }
    requires offset { IsMatchOffset offset }
    requires silence { silence.now ≡ replicate 5878 0 }
    requires room { length words.old ≡ 65536 }
    requires bytes { length scratch.old ≡ 131072 }
    requires inside { ForSome (S.held shelf.old) (AreInFiles image.now) }
    requires count { word_count image.now ≡ 1176 * layout.now.sectors }
    ensures sums { IfSome (S.held shelf.old) (λ files. IfOk result (λ sums. sums ≡ shifted_sums (toc_of layout.now) (joined_words image.now files) (i + 1) offset)) }
    ensures room { length words.new ≡ 65536 }
    ensures bytes { length scratch.new ≡ 131072 }
    ensures only { OnlyReads S.Shelf shelf.old shelf.new }
    ensures cause { ReadsOnly (S.faults shelf.old) (S.faults shelf.new) result }
    ensures taken { Takes (2352 * (begin_of (toc_of layout.now) (i + 1) - begin_of (toc_of layout.now) i)) result (S.taken shelf.old) (S.taken shelf.new) }
{
    let tracks = layout.starts.as_slice().len();
    let begin = begin_of(layout, i);
    let end = begin_of(layout, i + 1);
    let span = Span::of(
        SECTOR_WORDS * u64::from(begin),
        SECTOR_WORDS * u64::from(end),
        offset,
        image.words(),
    );
    let mut sum = TrackSum::new(i == 0, i + 1 == tracks, 588 * (end - begin));
    sum.absorb(&silence[..span.before as usize]);
    sum_words(shelf, image, &mut sum, span.from, span.end, words, scratch)?;
    sum.absorb(&silence[..span.after as usize]);
    Ok(sum.finish())
}

// Sums all tracks at an offset.
fn row_at<S: Shelf>(
    alloc: Global,
    shelf: &mut S,
    layout: &Layout,
    image: &Image,
    offset: i32,
    silence: &[u16],
    words: &mut [u16],
    scratch: &mut [u8],
) -> Result<V2Row, Stop>
    requires offset { IsMatchOffset offset }
    requires silence { silence.now ≡ replicate 5878 0 }
    requires room { length words.old ≡ 65536 }
    requires bytes { length scratch.old ≡ 131072 }
    requires inside { ForSome (S.held shelf.old) (AreInFiles image.now) }
    requires count { word_count image.now ≡ 1176 * layout.now.sectors }
    ensures row { IfSome (S.held shelf.old) (λ files. IfOk result (λ row. row ≡ v2_row (toc_of layout.now) (joined_words image.now files) offset)) }
    ensures room { length words.new ≡ 65536 }
    ensures bytes { length scratch.new ≡ 131072 }
    ensures only { OnlyReads S.Shelf shelf.old shelf.new }
    ensures cause { ReadsOnly (S.faults shelf.old) (S.faults shelf.new) result }
    ensures taken { Takes (2 * word_count image.now) result (S.taken shelf.old) (S.taken shelf.new) }
{
    let mut list = Vec::new(alloc);
    for i in 0..layout.starts.as_slice().len() {
        let sums = sum_moved(shelf, layout, image, i, offset, silence, words, scratch)?;
        let Ok(()) = list.push(sums) else {
            return Err(Stop::Oom);
        };
    }
    Ok(V2Row {
        offset,
        sums: SumList::of(list),
    })
}

/// Sums all tracks at each of these offsets. The rip's words are read once for each.
pub fn rows_at<S: Shelf>(
    alloc: Global,
    shelf: &mut S,
    layout: &Layout,
    image: &Image,
    offsets: &[i32],
) -> Result<Rows, Stop>
    requires within { All IsMatchOffset offsets.now }
    requires inside { ForSome (S.held shelf.old) (AreInFiles image.now) }
    requires count { word_count image.now ≡ 1176 * layout.now.sectors }
    ensures rows { IfSome (S.held shelf.old) (λ files. IfOk result (λ rows. rows ≡ moved_rows (toc_of layout.now) (joined_words image.now files) offsets.now)) }
    ensures only { OnlyReads S.Shelf shelf.old shelf.new }
    ensures cause { ReadsOnly (S.faults shelf.old) (S.faults shelf.new) result }
    ensures taken { Takes (2 * word_count image.now * length offsets.now) result (S.taken shelf.old) (S.taken shelf.new) }
{
    let silence = vec![in alloc; 0u16; MOST_SILENCE]?;
    let mut words = zero_words(alloc, PIECE)?;
    let mut scratch = zero_bytes(alloc, 2 * PIECE)?;
    let mut rows = Vec::new(alloc);
    for i in 0..offsets.len() {
        let row = row_at(
            alloc,
            shelf,
            layout,
            image,
            offsets[i],
            &silence,
            &mut words,
            &mut scratch,
        )?;
        let Ok(()) = rows.push(row) else {
            return Err(Stop::Oom);
        };
    }
    Ok(Rows::of(rows))
}
