// The sheet of a rip.
ghost use Rattle.std.specs.Prelude.{◌≡◌, ◌≤◌, length, vec_len, IfOk, IfSome};
ghost use Rattle.std.specs.FinMap.{get};
ghost use Rattle.rip_outside.specs.Files.{bytes_at};
ghost use Rattle.cue_sheet.specs.Reading.{sheet_of};
ghost use Rattle.disc_toc.specs.Joined.{sole_sheet};
ghost use Rattle.rip_outside.specs.Reading.{OnlyReads};
ghost use Rattle.rip_inputs.specs.Opening.{IsTooLong, behind, disc_sheet, lengths_of, sheet_names, sheet_opened, text_opened};
ghost use Rattle.rip_inputs.specs.Telling.{TellsOpening, OpeningHasCause, OpeningTakes};

use crate::naming::{folder_of, is_sheet, names_behind};
use crate::rip::RipFail;
use cue_sheet::{Cue, CueFail, CueKind, CueTrack, CueTracks, read_cue};
use rip_outside::{Name, Names, Shelf, ShelfCall};
use std::alloc::{AllocError, Global};

// The most bytes that a sheet has.
const MOST_BYTES: u64 = 1_048_576;

// The text of the sheet of this name.
#[tactic(auto, unfolding(crate::specs::Opening::text_opened))]
fn read_text<S: Shelf>(alloc: Global, shelf: &mut S, name: &str) -> Result<Vec<u8>, RipFail>
    ensures answer { IfSome (S.held shelf.old) (λ files. TellsOpening (λ text. text.items) result (text_opened name.now (get files name.now))) }
    ensures few { IfOk result (λ text. vec_len text ≤ 1048576) }
    ensures only { OnlyReads S.Shelf shelf.old shelf.new }
    ensures cause { OpeningHasCause (S.faults shelf.old) (S.faults shelf.new) result }
    ensures taken { OpeningTakes (S.held shelf.old) (λ files. length (bytes_at name.now files)) result (S.taken shelf.old) (S.taken shelf.new) }
    ensures unread { IfSome (S.held shelf.old) (λ files. IsTooLong name.now files → S.taken shelf.new ≡ S.taken shelf.old) }
{
    let size = match shelf.size(name) {
        Ok(Some(size)) => size,
        Ok(None) => {
            let name = Name::copied(alloc, name)?;
            return Err(RipFail::Missing { name });
        }
        Err(_) => {
            return Err(RipFail::ReadFault {
                call: ShelfCall::Size,
            });
        }
    };
    if size > MOST_BYTES {
        return Err(RipFail::CueRefused {
            line: 0,
            kind: CueKind::SheetTooLong,
        });
    }
    let mut text = vec![in alloc; 0u8; size as usize]?;
    match shelf.read_at(name, 0, &mut text) {
        Ok(()) => Ok(text),
        Err(_) => Err(RipFail::ReadFault {
            call: ShelfCall::ReadAt,
        }),
    }
}

// What the sheet of this name says.
#[tactic(auto, unfolding(crate::specs::Opening::sheet_opened))]
fn open_sheet<S: Shelf>(alloc: Global, shelf: &mut S, name: &str) -> Result<Cue, RipFail>
    ensures answer { IfSome (S.held shelf.old) (λ files. TellsOpening sheet_of result (sheet_opened name.now (get files name.now))) }
    ensures only { OnlyReads S.Shelf shelf.old shelf.new }
    ensures cause { OpeningHasCause (S.faults shelf.old) (S.faults shelf.new) result }
    ensures taken { OpeningTakes (S.held shelf.old) (λ files. length (bytes_at name.now files)) result (S.taken shelf.old) (S.taken shelf.new) }
    ensures unread { IfSome (S.held shelf.old) (λ files. IsTooLong name.now files → S.taken shelf.new ≡ S.taken shelf.old) }
{
    let text = read_text(alloc, shelf, name)?;
    match read_cue(alloc, &text) {
        Ok(cue) => Ok(cue),
        Err(CueFail::Refused { line, kind }) => Err(RipFail::CueRefused { line, kind }),
        Err(CueFail::Oom) => Err(RipFail::Oom),
    }
}

// A sheet with its files' names behind a folder.
fn put_behind(alloc: Global, folder: &str, cue: Cue) -> Result<Cue, AllocError>
    ensures { IfOk result (λ placed. sheet_of placed ≡ behind folder.now (sheet_of cue)) }
{
    Ok(Cue {
        files: names_behind(alloc, folder, cue.files.as_slice())?,
        tracks: cue.tracks,
        pregap: cue.pregap,
    })
}

// The sheet of one WAV file, which is one track.
fn sole_cue(alloc: Global, input: &str) -> Result<Cue, AllocError>
    ensures { IfOk result (λ cue. sheet_of cue ≡ sole_sheet input.now) }
{
    let mut files = Vec::new(alloc);
    files.push(Name::copied(alloc, input)?)?;
    let mut tracks = Vec::new(alloc);
    tracks.push(CueTrack {
        file: 0,
        index01: 0,
    })?;
    Ok(Cue {
        files: Names::of(files),
        tracks: CueTracks::of(tracks),
        pregap: 0,
    })
}

/// The sheet of the rip of this name, with its files' names behind its folder.
#[tactic(auto, unfolding(crate::specs::Opening::disc_sheet))]
pub fn open_disc_sheet<S: Shelf>(alloc: Global, shelf: &mut S, input: &str) -> Result<Cue, RipFail>
    ensures answer { IfSome (S.held shelf.old) (λ files. TellsOpening sheet_of result (disc_sheet input.now files)) }
    ensures only { OnlyReads S.Shelf shelf.old shelf.new }
    ensures cause { OpeningHasCause (S.faults shelf.old) (S.faults shelf.new) result }
    ensures taken { OpeningTakes (S.held shelf.old) (lengths_of (sheet_names input.now)) result (S.taken shelf.old) (S.taken shelf.new) }
    ensures unread { IfSome (S.held shelf.old) (λ files. IsTooLong input.now files → S.taken shelf.new ≡ S.taken shelf.old) }
{
    if !is_sheet(input) {
        return Ok(sole_cue(alloc, input)?);
    }
    let cue = open_sheet(alloc, shelf, input)?;
    Ok(put_behind(alloc, folder_of(input), cue)?)
}
