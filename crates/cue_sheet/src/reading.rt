// How a sheet is read: line by line.
ghost use Rattle.std.specs.Prelude.{◌≤◌, length};
ghost use Rattle.cue_sheet.specs.Reading.{line_reading, sheet_reading, ReadsSheet};
ghost use Rattle.cue_sheet.specs.Progress.{state_of, IsSound, StepsOrWants};

use crate::command::{Command, command_of};
use crate::fail::{CueFail, CueKind, LineFail};
use crate::progress::{
    Progress, finish, new_progress, read_file, read_index, read_pregap, read_track,
};
use crate::sheet::Cue;
use crate::text::{split_line, split_word, trim_start, without_mark, without_return};
use std::alloc::Global;

// A line.
#[tactic(auto, unfolding(crate::specs::Reading::line_reading, crate::specs::Reading::words_reading, crate::specs::Reading::line_check, crate::specs::Reading::part))]
fn read_line(alloc: Global, progress: &mut Progress, line: &[u8]) -> Result<(), LineFail>
    requires { IsSound (state_of progress.old) }
    ensures { StepsOrWants result (line_reading (state_of progress.old) line.now) (state_of progress.new) }
{
    let text = trim_start(without_return(line));
    if text.is_empty() {
        return Ok(());
    }
    let (word, rest) = split_word(text);
    match command_of(word) {
        Some(Command::Unread) => Ok(()),
        Some(Command::File) => read_file(alloc, progress, rest),
        Some(Command::Track) => match read_track(progress, rest) {
            Ok(()) => Ok(()),
            Err(kind) => Err(LineFail::Refused { kind }),
        },
        Some(Command::Index) => read_index(progress, rest),
        Some(Command::Pregap) => match read_pregap(progress, rest) {
            Ok(()) => Ok(()),
            Err(kind) => Err(LineFail::Refused { kind }),
        },
        Some(Command::Postgap) => Err(LineFail::Refused {
            kind: CueKind::Postgap,
        }),
        None => Err(LineFail::Refused {
            kind: CueKind::UnknownWord,
        }),
    }
}

/// The cue sheet that this text is, or the first line with which it is refused. A sheet without a
/// track, or whose last track has no INDEX 01, is refused at line 0. A sheet has at most 1,048,576
/// bytes.
pub fn read_cue(alloc: Global, bytes: &[u8]) -> Result<Cue, CueFail>
    requires { length bytes.now ≤ 1048576 }
    ensures { ReadsSheet result (sheet_reading bytes.now) }
{
    let mut progress = new_progress(alloc);
    let mut rest = without_mark(bytes);
    let mut line: u32 = 0;
    while !rest.is_empty() {
        let (text, later) = split_line(rest);
        line += 1;
        match read_line(alloc, &mut progress, text) {
            Ok(()) => {}
            Err(LineFail::Refused { kind }) => return Err(CueFail::Refused { line, kind }),
            Err(LineFail::Oom) => return Err(CueFail::Oom),
        }
        rest = later;
    }
    match finish(progress) {
        Ok(cue) => Ok(cue),
        Err(kind) => Err(CueFail::Refused { line: 0, kind }),
    }
}
