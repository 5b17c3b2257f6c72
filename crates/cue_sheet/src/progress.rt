// What was read of a sheet so far, and the commands that add to it.
ghost use Rattle.std.specs.Prelude.{◌≡◌, ◌<◌, ◌≤◌, MatchResult, IfSome};
ghost use Rattle.cue_sheet.specs.Reading.{nothing_read, sheet_end, file_reading, follows, track_reading, index_reading, is_complete, pregap_reading, sheet_of};
ghost use Rattle.cue_sheet.specs.Progress.{state_of, IsSound, Steps, StepsOrWants};

use crate::command::same_word;
use crate::fail::{CueKind, LineFail};
use crate::parts::{label_of, name_of, text_of, time_of};
use crate::sheet::{Cue, CueTrack, CueTracks};
use crate::text::{split_word, trim_end, trim_start};
use rip_basics::{Name, Names};
use std::alloc::Global;

// What was read of a sheet so far.
#[derive(Drop)]
pub struct Progress {
    pub files: Vec<Name>,
    // The tracks that have their INDEX 01.
    pub tracks: Vec<CueTrack>,
    // The number of the last TRACK line, which is how many there were.
    pub number: u32,
    // The number of the last INDEX line of that track.
    pub index: Option<u32>,
    // The time of the last INDEX line in the last file, or 0.
    pub time: u32,
    // The time of the PREGAP line.
    pub pregap: Option<u32>,
}

// A sheet of which nothing was read.
pub fn new_progress(alloc: Global) -> Progress
    ensures { state_of result ≡ nothing_read }
{
    Progress {
        files: Vec::new(alloc),
        tracks: Vec::new(alloc),
        number: 0,
        index: None,
        time: 0,
        pregap: None,
    }
}

fn refused(kind: CueKind) -> LineFail
    ensures { result ≡ LineFail.Refused kind }
{
    LineFail::Refused { kind }
}

// Each track so far has its INDEX 01.
fn is_complete(progress: &Progress) -> bool
    ensures { result ≡ is_complete (state_of progress.now) }
{
    progress.tracks.len() == progress.number as usize
}

// The most files that a sheet has.
const MOST_FILES: usize = 100;

// A FILE line.
#[tactic(auto, unfolding(crate::specs::Reading::file_reading, crate::specs::Reading::line_check, crate::specs::Reading::part))]
pub fn read_file(alloc: Global, progress: &mut Progress, text: &[u8]) -> Result<(), LineFail>
    ensures { StepsOrWants result (file_reading (state_of progress.old) text.now) (state_of progress.new) }
{
    let (name, rest) = match name_of(text) {
        Some(found) => found,
        None => return Err(refused(CueKind::BadQuote)),
    };
    let name = match text_of(name) {
        Some(name) => name,
        None => return Err(refused(CueKind::NameNotText)),
    };
    if !same_word(trim_end(trim_start(rest)), b"WAVE") {
        return Err(refused(CueKind::NotWave));
    }
    if progress.files.len() >= MOST_FILES {
        return Err(refused(CueKind::TooManyFiles));
    }
    let name = match String::from_str(alloc, name) {
        Ok(name) => Name::of(name),
        Err(_) => return Err(LineFail::Oom),
    };
    if progress.files.push(name).is_err() {
        return Err(LineFail::Oom);
    }
    progress.time = 0;
    Ok(())
}

// A TRACK line.
#[tactic(auto, unfolding(crate::specs::Reading::track_reading, crate::specs::Reading::line_check, crate::specs::Reading::part))]
pub fn read_track(progress: &mut Progress, text: &[u8]) -> Result<(), CueKind>
    requires { IsSound (state_of progress.old) }
    ensures { Steps result (track_reading (state_of progress.old) text.now) (state_of progress.new) }
{
    if progress.files.is_empty() {
        return Err(CueKind::NoFile);
    }
    let (word, rest) = split_word(text);
    let number = match label_of(word) {
        Some(number) => number,
        None => return Err(CueKind::BadNumber),
    };
    if !same_word(trim_end(rest), b"AUDIO") {
        return Err(CueKind::DataTrack);
    }
    if number != progress.number + 1 {
        return Err(CueKind::TrackOrder);
    }
    if !is_complete(progress) {
        return Err(CueKind::NoIndex01);
    }
    progress.number = number;
    progress.index = None;
    Ok(())
}

// An index with this number may stand after the one before it in its track, if there is one.
fn follows(before: Option<u32>, number: u32) -> bool
    requires { IfSome before (λ index. index ≤ 99) }
    ensures { result ≡ follows before number }
{
    match before {
        Some(before) => number == before + 1,
        None => number <= 1,
    }
}

// An INDEX line.
#[tactic(auto, unfolding(crate::specs::Reading::index_reading, crate::specs::Reading::line_check, crate::specs::Reading::part))]
pub fn read_index(progress: &mut Progress, text: &[u8]) -> Result<(), LineFail>
    requires { IsSound (state_of progress.old) }
    ensures { StepsOrWants result (index_reading (state_of progress.old) text.now) (state_of progress.new) }
{
    if progress.number == 0 {
        return Err(refused(CueKind::NoTrack));
    }
    let (word, rest) = split_word(text);
    let number = match label_of(word) {
        Some(number) => number,
        None => return Err(refused(CueKind::BadNumber)),
    };
    let time = match time_of(trim_end(rest)) {
        Some(time) => time,
        None => return Err(refused(CueKind::BadTime)),
    };
    if !follows(progress.index, number) || time < progress.time {
        return Err(refused(CueKind::IndexOrder));
    }
    if number == 1 {
        let track = CueTrack {
            file: progress.files.len() as u32 - 1,
            index01: time,
        };
        if progress.tracks.push(track).is_err() {
            return Err(LineFail::Oom);
        }
    }
    progress.index = Some(number);
    progress.time = time;
    Ok(())
}

// A PREGAP line.
#[tactic(auto, unfolding(crate::specs::Reading::pregap_reading, crate::specs::Reading::line_check, crate::specs::Reading::part))]
pub fn read_pregap(progress: &mut Progress, text: &[u8]) -> Result<(), CueKind>
    ensures { Steps result (pregap_reading (state_of progress.old) text.now) (state_of progress.new) }
{
    if progress.number == 0 {
        return Err(CueKind::NoTrack);
    }
    if progress.number != 1 || !progress.tracks.is_empty() || progress.pregap.is_some() {
        return Err(CueKind::LatePregap);
    }
    let time = match time_of(trim_end(text)) {
        Some(time) => time,
        None => return Err(CueKind::BadTime),
    };
    progress.pregap = Some(time);
    Ok(())
}

// The sheet, once all its lines were read.
#[tactic(auto, unfolding(crate::specs::Reading::sheet_end, crate::specs::Reading::line_check, crate::specs::Reading::part))]
pub fn finish(progress: Progress) -> Result<Cue, CueKind>
    requires { IsSound (state_of progress) }
    ensures { MatchResult result (λ cue. sheet_end (state_of progress) ≡ Ok (sheet_of cue)) (λ kind. sheet_end (state_of progress) ≡ Err kind) }
{
    if progress.number == 0 {
        return Err(CueKind::NoTracks);
    }
    if !is_complete(&progress) {
        return Err(CueKind::NoIndex01);
    }
    Ok(Cue {
        files: Names::of(progress.files),
        tracks: CueTracks::of(progress.tracks),
        pregap: progress.pregap.unwrap_or(0),
    })
}
