// The layout of the files of a cue sheet, one after the other.
ghost use Rattle.std.specs.Prelude.{◌≡◌, ◌≤◌, ◌<◌, All, IfOk, length, map, true, false};
ghost use Rattle.cue_sheet.specs.Reading.{sheet_of};
ghost use Rattle.cue_sheet.specs.Sheet.{IsPlaced};
ghost use Rattle.disc_toc.specs.OneTrack.{Answers};
ghost use Rattle.disc_toc.specs.Joined.{AreShort, broken_file, SectorsRead, layout_reading, rises_above, sectors_in, start_of, track_fault};

use crate::layout::{Layout, Starts99};
use crate::reading::{LayoutFail, LayoutKind, MOST_SECTORS, SECTOR_WORDS};
use cue_sheet::{Cue, CueTrack};
use std::alloc::{AllocError, Global};

// The first file that is no whole number of sectors.
#[tactic(auto, unfolding(crate::specs::Joined::broken_file))]
fn broken_file(words: &[u64]) -> Option<u32>
    requires { length words.now ≤ 100 }
    ensures { result ≡ broken_file 1 words.now }
{
    for i in 0..words.len() {
        if words[i] % SECTOR_WORDS != 0 {
            return Some(i as u32 + 1);
        }
    }
    None
}

// The sectors of files together.
#[tactic(auto, unfolding(crate::specs::Joined::sectors_in))]
fn sectors_in(words: &[u64]) -> u32
    requires few { length words.now ≤ 100 }
    requires short { AreShort words.now }
    ensures value { result ≡ sectors_in words.now }
    ensures bound { result ≤ 182609100 }
{
    let mut total = 0;
    for count in words {
        total += (*count / SECTOR_WORDS) as u32;
    }
    total
}

// Where a track starts, after all earlier files.
#[tactic(auto, unfolding(crate::specs::Joined::start_of))]
fn start_of(words: &[u64], track: CueTrack) -> u32
    requires few { length words.now ≤ 100 }
    requires short { AreShort words.now }
    requires placed { IsPlaced (length words.now) track }
    ensures { result ≡ start_of words.now track }
{
    sectors_in(&words[..track.file as usize]) + track.index01
}

fn rises(before: Option<u32>, start: u32) -> bool
    ensures { result ≡ rises_above before start }
{
    match before {
        Some(before) => before < start,
        None => true,
    }
}

// The first fault of the tracks.
#[tactic(auto, unfolding(crate::specs::Joined::track_fault))]
fn track_fault(words: &[u64], tracks: &[CueTrack]) -> Option<LayoutKind>
    requires few { length words.now ≤ 100 }
    requires short { AreShort words.now }
    requires few_tracks { length tracks.now ≤ 99 }
    requires placed { All (IsPlaced (length words.now)) tracks.now }
    ensures { result ≡ track_fault words.now 1 None tracks.now }
{
    let mut before = None;
    for i in 0..tracks.len() {
        let track = tracks[i];
        let number = i as u32 + 1;
        if u64::from(track.index01) >= words[track.file as usize] / SECTOR_WORDS {
            return Some(LayoutKind::IndexPastEnd { track: number });
        }
        let start = start_of(words, track);
        if !rises(before, start) {
            return Some(LayoutKind::StartOrder { track: number });
        }
        before = Some(start);
    }
    None
}

// The starts of the tracks.
fn starts(alloc: Global, words: &[u64], tracks: &[CueTrack]) -> Result<Starts99, AllocError>
    requires few { length words.now ≤ 100 }
    requires short { AreShort words.now }
    requires placed { All (IsPlaced (length words.now)) tracks.now }
    ensures { IfOk result (λ starts. starts ≡ map (start_of words.now) tracks.now) }
{
    let mut list = Vec::new(alloc);
    for track in tracks {
        list.push(start_of(words, *track))?;
    }
    Ok(Starts99::of(list))
}

// What is no layout in these files, or how many sectors they have.
#[tactic(auto, unfolding(crate::specs::Joined::layout_reading, crate::specs::Joined::unless))]
fn joined_sectors(cue: &Cue, words: &[u64]) -> Result<u32, LayoutKind>
    requires same { length words.now ≡ length cue.now.files }
    requires short { AreShort words.now }
    ensures { SectorsRead result (sheet_of cue.now) words.now }
{
    if let Some(file) = broken_file(words) {
        return Err(LayoutKind::NotWholeSectors { file });
    }
    if let Some(kind) = track_fault(words, cue.tracks.as_slice()) {
        return Err(kind);
    }
    let sectors = sectors_in(words);
    if u64::from(cue.pregap) + u64::from(sectors) > MOST_SECTORS {
        return Err(LayoutKind::TooLong {
            sectors: u64::from(sectors),
        });
    }
    Ok(sectors)
}

/// The layout of a cue sheet whose files have so many words each, joined in their order: a track starts
/// at its INDEX 01 after all earlier files. Refused are, in this order, the first file that is no whole
/// number of sectors, the first track whose INDEX 01 isn't in its file or that doesn't start after the
/// track before, and more than a disc has.
pub fn layout_of(alloc: Global, cue: &Cue, words: &[u64]) -> Result<Layout, LayoutFail>
    requires same { length words.now ≡ length cue.now.files }
    requires short { AreShort words.now }
    ensures { Answers result (layout_reading (sheet_of cue.now) words.now) }
{
    let sectors = match joined_sectors(cue, words) {
        Ok(sectors) => sectors,
        Err(kind) => return Err(LayoutFail::Refused { kind }),
    };
    match starts(alloc, words, cue.tracks.as_slice()) {
        Ok(starts) => Ok(Layout {
            pregap: cue.pregap,
            starts,
            sectors,
        }),
        Err(_) => Err(LayoutFail::Oom),
    }
}
