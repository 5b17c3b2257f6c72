// Opening a file by its name.
ghost use Rattle.std.specs.Prelude.{◌≡◌, ◌+◌, ◌-◌, ◌^◌, ◌<◌, ◌≤◌, min, length, take, drop, IsTrue, Ok, IfOk, IfSome};
ghost use Rattle.std.specs.Str.{bytes_eq};
ghost use Rattle.std.specs.Option.{ForSome};
ghost use Rattle.std.specs.FinMap.{get};
ghost use Rattle.rip_outside.specs.Files.{bytes_at};
ghost use Rattle.rip_outside.specs.Reading.{OnlyReads};
ghost use Rattle.wav_frames.specs.Opening.{ReadingHasCause, AreWholeSamples, OpensWav, TakesAtMost, TakesWithinFile, Tells};

use crate::chunks::find_data;
use crate::fail::{WavAt, WavFail, WavKind};
use crate::pieces::read_piece;
use rip_outside::{Shelf, ShelfCall};

// Whether four bytes stand at a place of a file of this length.
fn has_mark<S: Shelf>(
    shelf: &mut S,
    name: &str,
    size: u64,
    at: u64,
    mark: [u8; 4],
) -> Result<bool, WavFail>
    requires inside { ForSome (S.held shelf.old) (λ files. size ≡ length (bytes_at name.now files)) }
    requires fits { at + 4 < 2 ^ 64 }
    ensures answer { ForSome (S.held shelf.old) (λ files. Tells result (Ok (bytes_eq (take 4 (drop at (bytes_at name.now files))) mark))) }
    ensures only { OnlyReads S.Shelf shelf.old shelf.new }
    ensures cause { ReadingHasCause (S.faults shelf.old) (S.faults shelf.new) result }
    ensures long { IfOk result (λ has. IsTrue has → at + 4 ≤ size) }
    ensures taken { TakesAtMost (min 4 (size - at)) result (S.taken shelf.old) (S.taken shelf.new) }
{
    if size < at + 4 {
        return Ok(false);
    }
    let mut found = [0; 4];
    read_piece(shelf, name, at, &mut found)?;
    Ok(found == mark)
}

/// Where the words of the file of this name stand.
#[tactic(auto, unfolding(crate::specs::Chunks::wav_reading))]
pub fn open_wav<S: Shelf>(shelf: &mut S, name: &str) -> Result<WavAt, WavFail>
    ensures answer { IfSome (S.held shelf.old) (λ files. OpensWav result (get files name.now)) }
    ensures inside { IfOk result AreWholeSamples }
    ensures only { OnlyReads S.Shelf shelf.old shelf.new }
    ensures cause { ReadingHasCause (S.faults shelf.old) (S.faults shelf.new) result }
    ensures taken { TakesWithinFile (S.held shelf.old) name.now result (S.taken shelf.old) (S.taken shelf.new) }
{
    let size = match shelf.size(name) {
        Ok(Some(size)) => size,
        Ok(None) => return Err(WavFail::Missing),
        Err(_) => {
            return Err(WavFail::ReadFault {
                call: ShelfCall::Size,
            });
        }
    };
    if !has_mark(shelf, name, size, 0, *b"RIFF")? {
        return Err(WavFail::Refused {
            kind: WavKind::NotRiff,
            at: 0,
        });
    }
    if !has_mark(shelf, name, size, 8, *b"WAVE")? {
        return Err(WavFail::Refused {
            kind: WavKind::NotWave,
            at: 8,
        });
    }
    find_data(shelf, name, size)
}
