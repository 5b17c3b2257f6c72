//! Where the tracks of a rip begin, and its words, read in pieces into the sums of one.
#![tactic(auto)]

ghost use Rattle.std.specs.Prelude.{◌≡◌, ◌-◌, ◌+◌, ◌*◌, ◌%◌, ◌≤◌, ◌++◌, ℕ, List, length, slice_range, IfSome, OnOk};
ghost use Rattle.std.specs.Option.{ForSome};
ghost use Rattle.rip_outside.specs.Reading.{OnlyReads};
ghost use Rattle.disc_toc.specs.Toc.{toc_of};
ghost use Rattle.accurip_sums.specs.StandsFor.{TrackStandsFor};
ghost use Rattle.image_mender.specs.Joined.{AreInFiles, joined_words, word_count};
ghost use Rattle.engine_steps.specs.Steps.{ReadsOnly, Takes};
ghost use Rattle.engine_sums.specs.Tracks.{begin_of};

use accurip_sums::TrackSum;
use disc_toc::Layout;
use engine_steps::{PIECE, Stop};
use image_mender::Image;
use rip_outside::{Shelf, ShelfCall};

/// The sector in which the track begins before which there are `i`, or where the audio ends that follows the last.
#[tactic(auto, unfolding(crate::specs::Tracks::begin_of))]
pub fn begin_of(layout: &Layout, i: usize) -> u32
    ensures { result ≡ begin_of (toc_of layout.now) i }
{
    let starts = layout.starts.as_slice();
    if i < starts.len() {
        starts[i]
    } else {
        layout.sectors
    }
}

/// Takes the rip's words from one place to another into a track's sums. They are read in pieces, by way of room for the
/// words and the bytes of one.
pub fn sum_words<S: Shelf>(
    shelf: &mut S,
    image: &Image,
    sum: &mut TrackSum,
    from: u64,
    end: u64,
    words: &mut [u16],
    scratch: &mut [u8],
) -> Result<(), Stop>
    requires room { length words.old ≡ 65536 }
    requires bytes { length scratch.old ≡ 131072 }
    requires begins { from ≤ end }
    requires ends { end ≤ word_count image.now }
    requires whole { (end - from) % 2 ≡ 0 }
    requires samples { 2 * sum.old.position + (end - from) ≤ 2 * sum.old.samples }
    requires inside { ForSome (S.held shelf.old) (AreInFiles image.now) }
    ensures first { sum.new.first ≡ sum.old.first }
    ensures last { sum.new.last ≡ sum.old.last }
    ensures samples { sum.new.samples ≡ sum.old.samples }
    ensures position { OnOk result (2 * sum.new.position ≡ 2 * sum.old.position + (end - from)) }
    ensures stands { IfSome (S.held shelf.old) (λ files. OnOk result ((y : List ℕ) → TrackStandsFor sum.old y → TrackStandsFor sum.new (y ++ slice_range (joined_words image.now files) from end))) }
    ensures room { length words.new ≡ 65536 }
    ensures bytes { length scratch.new ≡ 131072 }
    ensures only { OnlyReads S.Shelf shelf.old shelf.new }
    ensures cause { ReadsOnly (S.faults shelf.old) (S.faults shelf.new) result }
    ensures taken { Takes (2 * (end - from)) result (S.taken shelf.old) (S.taken shelf.new) }
{
    let mut at = from;
    'pieces: while at < end {
        let count = (end - at).min(PIECE as u64) as usize;
        let piece = &mut words[..count];
        let Ok(()) = image.read(shelf, at, piece, scratch) else {
            return Err(Stop::ReadFault {
                call: ShelfCall::ReadAt,
            });
        };
        sum.absorb(piece);
        at += count as u64;
    }
    Ok(())
}
