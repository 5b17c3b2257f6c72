//! The command `sums`: the ids of a rip, and the sums of its tracks.
#![tactic(auto)]

ghost use Rattle.std.specs.Prelude.{◌≡◌, ◌-◌, ◌+◌, ◌*◌, ◌<◌, length, IfSome, IfOk};
ghost use Rattle.std.specs.Option.{ForSome};
ghost use Rattle.rip_outside.specs.Reading.{OnlyReads};
ghost use Rattle.disc_toc.specs.Toc.{toc_of};
ghost use Rattle.image_mender.specs.Joined.{AreInFiles, joined_words, word_count};
ghost use Rattle.rip_inputs.specs.Opening.{lengths_of, names_read};
ghost use Rattle.engine_sums.specs.Tracks.{begin_of};
ghost use Rattle.engine_steps.specs.Steps.{EndsWithCause, ReadsOnly, Takes};
ghost use Rattle.cmd_sums.specs.SumsOutcome.{disc_sums, sums_of, IsSumsOutcome};
ghost use Rattle.engine_steps.specs.Outcome.{Leaves};

use accurip_sums::{SumList, Sums, TrackSum};
use disc_toc::Layout;
use engine_steps::{Answer, PIECE, Stop, open_input, zero_bytes, zero_words};
use engine_sums::{begin_of, sum_words};
use image_mender::Image;
use rip_inputs::Rip;
use rip_outside::Shelf;
use rip_report::{Report, Status, text_of};
use std::alloc::Global;

/// The words of a sector.
const SECTOR_WORDS: u64 = 1176;

// Sums the track before which there are `i`.
#[tactic(auto, unfolding(crate::specs::SumsOutcome::sums_of, crate::specs::SumsOutcome::track_words))]
fn sum_track<S: Shelf>(
    shelf: &mut S,
    layout: &Layout,
    image: &Image,
    i: usize,
    words: &mut [u16],
    scratch: &mut [u8],
) -> Result<Sums, Stop>
    requires track { i < length layout.now.starts }
    requires room { length words.old ≡ 65536 }
    requires bytes { length scratch.old ≡ 131072 }
    requires inside { ForSome (S.held shelf.old) (AreInFiles image.now) }
    requires count { word_count image.now ≡ 1176 * layout.now.sectors }
    ensures sums { IfSome (S.held shelf.old) (λ files. IfOk result (λ sums. sums ≡ sums_of (toc_of layout.now) (joined_words image.now files) i)) }
    ensures room { length words.new ≡ 65536 }
    ensures bytes { length scratch.new ≡ 131072 }
    ensures only { OnlyReads S.Shelf shelf.old shelf.new }
    ensures cause { ReadsOnly (S.faults shelf.old) (S.faults shelf.new) result }
    ensures taken { Takes (2352 * (begin_of (toc_of layout.now) (i + 1) - begin_of (toc_of layout.now) i)) result (S.taken shelf.old) (S.taken shelf.new) }
{
    let tracks = layout.starts.as_slice().len();
    let begin = begin_of(layout, i);
    let end = begin_of(layout, i + 1);
    let mut sum = TrackSum::new(i == 0, i + 1 == tracks, 588 * (end - begin));
    let from = SECTOR_WORDS * u64::from(begin);
    let to = SECTOR_WORDS * u64::from(end);
    sum_words(shelf, image, &mut sum, from, to, words, scratch)?;
    Ok(sum.finish())
}

/// The sums of the rip's tracks, whose words are read once, in pieces.
#[tactic(auto, unfolding(crate::specs::SumsOutcome::disc_sums))]
pub fn sum_tracks<S: Shelf>(
    alloc: Global,
    shelf: &mut S,
    layout: &Layout,
    image: &Image,
) -> Result<SumList, Stop>
    requires inside { ForSome (S.held shelf.old) (AreInFiles image.now) }
    requires count { word_count image.now ≡ 1176 * layout.now.sectors }
    ensures sums { IfSome (S.held shelf.old) (λ files. IfOk result (λ sums. sums ≡ disc_sums (toc_of layout.now) (joined_words image.now files))) }
    ensures each { IfOk result (λ sums. length sums ≡ length layout.now.starts) }
    ensures only { OnlyReads S.Shelf shelf.old shelf.new }
    ensures cause { ReadsOnly (S.faults shelf.old) (S.faults shelf.new) result }
    ensures taken { Takes (2 * word_count image.now) result (S.taken shelf.old) (S.taken shelf.new) }
{
    let mut scratch = zero_bytes(alloc, 2 * PIECE)?;
    let mut words = zero_words(alloc, PIECE)?;
    let mut list = Vec::new(alloc);
    for i in 0..layout.starts.as_slice().len() {
        let sums = sum_track(shelf, layout, image, i, &mut words, &mut scratch)?;
        let Ok(()) = list.push(sums) else {
            return Err(Stop::Oom);
        };
    }
    Ok(SumList::of(list))
}

/// Tells the ids of a rip, and the sums of its tracks.
pub fn sums<S: Shelf>(alloc: Global, shelf: &mut S, input: &str) -> Result<Answer, Stop>
    ensures leaves { IfSome (S.held shelf.old) (λ files. Leaves (IsSumsOutcome input.now files) files result (S.held shelf.new)) }
    ensures cause { EndsWithCause (S.faults shelf.old) (S.faults shelf.new) result }
    ensures only { OnlyReads S.Shelf shelf.old shelf.new }
    ensures taken { IfSome (S.held shelf.old) (λ files. Takes (3 * lengths_of (names_read input.now files) files) result (S.taken shelf.old) (S.taken shelf.new)) }
{
    let Rip { layout, image, .. } = open_input(alloc, shelf, input)?;
    let sums = sum_tracks(alloc, shelf, &layout, &image)?;
    let text = text_of(alloc, &Report::SumsOf { layout, sums })?;
    Ok(Answer {
        status: Status::Done,
        text,
    })
}
