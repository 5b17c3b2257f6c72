// The sums of a track whose words come one after another.
ghost use Rattle.std.specs.Prelude.{◌≡◌, ◌+◌, ◌*◌, ◌%◌, ◌<◌, ◌≤◌, ◌++◌, ◌∷◌, [], List, ℕ, false, true, length};
ghost use Rattle.accurip_sums.specs.Track.{counts, track_sums};
ghost use Rattle.accurip_sums.specs.StandsFor.{TrackStandsFor};

use crate::pair::Sums;
use std::marker::Model;

/// The sums of a track of which a part has come. They are seen as what was named of the track, how many of its
/// samples have come, and the sums of those.
#[derive(Debug, Drop)]
pub struct TrackSum {
    first: bool,
    last: bool,
    samples: u32,
    position: u32,
    sums: Sums,
}

impl Model for TrackSum {
    ghost use Rattle.accurip_sums.specs.StandsFor.{KeptTrack};

    ghost Value = { KeptTrack };

    ghost view = { λ sum. record { first = sum.first; last = sum.last; samples = sum.samples; position = sum.position; sums = sum.sums } };
}

// How many samples don't count at the end of the last track, and the number of the first that counts in the first.
const MARGIN: u32 = 2940;

// A sample's value, 65,536 for each one of the right word, times its number.
fn product(number: u32, left: u16, right: u16) -> u64
    ensures { result ≡ number * (left + 65536 * right) }
{
    u64::from(number) * (u64::from(left) + 65536 * u64::from(right))
}

impl TrackSum {
    /// The sums of a track of this many samples, none of which has come. In the first track of a disc the first 2,939
    /// samples don't count, and in the last one the last 2,940; a sole track is both. It takes no memory.
    pub fn new(first: bool, last: bool, samples: u32) -> TrackSum
        ensures first { result.first ≡ first }
        ensures last { result.last ≡ last }
        ensures samples { result.samples ≡ samples }
        ensures stands { TrackStandsFor result [] }
    {
        TrackSum {
            first,
            last,
            samples,
            position: 0,
            sums: Sums { v1: 0, v2: 0 },
        }
    }

    // Of the next `count` samples those that count, from the first number to below the second: they stand in a row.
    fn counted(&self, count: u32) -> (u32, u32)
        requires { self.now.position + count ≤ self.now.samples }
        ensures rising { result.0 ≤ result.1 }
        ensures inside { result.1 ≤ count }
        ensures before { (i : ℕ) → i < result.0 → counts self.now.first self.now.last self.now.samples (self.now.position + i + 1) ≡ false }
        ensures between { (i : ℕ) → result.0 ≤ i → i < result.1 → counts self.now.first self.now.last self.now.samples (self.now.position + i + 1) ≡ true }
        ensures after { (i : ℕ) → result.1 ≤ i → i < count → counts self.now.first self.now.last self.now.samples (self.now.position + i + 1) ≡ false }
    {
        let mut start = 0;
        if self.first {
            start = (MARGIN - 1).saturating_sub(self.position).min(count);
        }
        let mut end = count;
        if self.last {
            end = self
                .samples
                .saturating_sub(self.position)
                .saturating_sub(MARGIN)
                .min(count)
                .max(start);
        }
        (start, end)
    }

    // Takes the next sample in. Where it counts or not is known, so that no test stands in a loop.
    fn absorb_sample(&mut self, left: u16, right: u16, is_counted: bool)
        requires room { self.old.position < self.old.samples }
        requires known { counts self.old.first self.old.last self.old.samples (self.old.position + 1) ≡ is_counted }
        ensures first { self.new.first ≡ self.old.first }
        ensures last { self.new.last ≡ self.old.last }
        ensures samples { self.new.samples ≡ self.old.samples }
        ensures position { self.new.position ≡ self.old.position + 1 }
        ensures stands { (y : List ℕ) → TrackStandsFor self.old y → TrackStandsFor self.new (y ++ left ∷ right ∷ []) }
    {
        prove!(self.position < self.samples);
        self.position += 1;
        if is_counted {
            self.sums = self.sums.plus(product(self.position, left, right));
        }
    }

    /// Takes the next words of the track in, a left and a right word for each sample, of which there are no more in
    /// all than the track has. It takes no memory.
    pub fn absorb(&mut self, words: &[u16])
        requires whole { length words.now % 2 ≡ 0 }
        requires room { 2 * self.old.position + length words.now ≤ 2 * self.old.samples }
        ensures first { self.new.first ≡ self.old.first }
        ensures last { self.new.last ≡ self.old.last }
        ensures samples { self.new.samples ≡ self.old.samples }
        ensures position { 2 * self.new.position ≡ 2 * self.old.position + length words.now }
        ensures stands { (y : List ℕ) → TrackStandsFor self.old y → TrackStandsFor self.new (y ++ words.now) }
    {
        let count = words.len() / 2;
        prove!(count <= self.samples as usize);
        let (start, end) = self.counted(count as u32);
        'early: for i in 0..start as usize {
            self.absorb_sample(words[2 * i], words[2 * i + 1], false);
        }
        'middle: for i in start as usize..end as usize {
            self.absorb_sample(words[2 * i], words[2 * i + 1], true);
        }
        'late: for i in end as usize..count {
            self.absorb_sample(words[2 * i], words[2 * i + 1], false);
        }
    }

    /// The track's sums, once all its samples have come. It takes no memory.
    pub fn finish(&self) -> Sums
        requires { self.now.position ≡ self.now.samples }
        ensures { (y : List ℕ) → TrackStandsFor self.now y → result ≡ track_sums self.now.first self.now.last y }
    {
        self.sums
    }
}
