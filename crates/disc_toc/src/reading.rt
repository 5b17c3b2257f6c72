// The layout of one file with one track.
ghost use Rattle.std.specs.Prelude.{◌≡◌, ◌≤◌, ◌∷◌, [], IfOk, List, ℕ};
ghost use Rattle.disc_toc.specs.Joined.{layout_reading, sole_sheet};
ghost use Rattle.disc_toc.specs.OneTrack.{Answers, one_track_reading, sectors_reading};

use crate::layout::{Layout, Starts99};
use std::alloc::{AllocError, Global};

/// Why files and tracks are no layout. Files and tracks count from 1.
#[derive(Clone, Copy, Debug, PartialEq, Eq)]
pub enum LayoutKind {
    /// A file's words are no whole number of sectors.
    NotWholeSectors { file: u32 },
    /// A track's INDEX 01 isn't below its file's number of sectors.
    IndexPastEnd { track: u32 },
    /// A track doesn't start above the start of the track before.
    StartOrder { track: u32 },
    /// The pregap and the audio have more than 445,500 sectors. The number is that of the audio.
    TooLong { sectors: u64 },
    /// The audio has fewer than the 30 sectors that parity needs.
    TooShort { sectors: u32 },
}

/// Why there is no layout.
#[derive(Clone, Copy, Debug, PartialEq, Eq)]
pub enum LayoutFail {
    Refused { kind: LayoutKind },
    Oom,
}

/// A sector's words: 588 stereo samples of two words.
pub const SECTOR_WORDS: u64 = 1176;

/// The most sectors of a pregap and the audio after it: 99 minutes.
pub const MOST_SECTORS: u64 = 445_500;

// The sectors that these words are.
fn whole_sectors(words: u64) -> Result<u32, LayoutKind>
    ensures { result ≡ sectors_reading words }
{
    let sectors = words / SECTOR_WORDS;
    if words % SECTOR_WORDS != 0 {
        Err(LayoutKind::NotWholeSectors { file: 1 })
    } else if sectors == 0 {
        Err(LayoutKind::IndexPastEnd { track: 1 })
    } else if sectors > MOST_SECTORS {
        Err(LayoutKind::TooLong { sectors })
    } else {
        Ok(sectors as u32)
    }
}

// The starts of a sole track, which is the list of 0 alone.
fn sole_start(alloc: Global) -> Result<Starts99, AllocError>
    ensures { IfOk result (λ starts. starts ≡ 0 ∷ []) }
{
    let mut list = Vec::new(alloc);
    list.push(0)?;
    Ok(Starts99::of(list))
}

/// The layout of one file of this many words and one track that begins with it: that of a sheet which
/// has these alone.
#[tactic(auto, using(crate::proofs::JoinedLaws::sole_reading))]
pub fn one_track(alloc: Global, words: u64) -> Result<Layout, LayoutFail>
    requires { words ≤ 2147483647 }
    ensures value { Answers result (one_track_reading words) }
    ensures joined { (name : List ℕ) → Answers result (layout_reading (sole_sheet name) (words ∷ [])) }
{
    let sectors = match whole_sectors(words) {
        Ok(sectors) => sectors,
        Err(kind) => return Err(LayoutFail::Refused { kind }),
    };
    match sole_start(alloc) {
        Ok(starts) => Ok(Layout {
            pregap: 0,
            starts,
            sectors,
        }),
        Err(_) => Err(LayoutFail::Oom),
    }
}
