// The chunks of a file.
ghost use Rattle.std.specs.Prelude.{◌≡◌, ◌+◌, ◌-◌, ◌^◌, ◌<◌, ◌≤◌, min, length, drop, IfOk, false};
ghost use Rattle.std.specs.Option.{ForSome};
ghost use Rattle.rip_outside.specs.Files.{bytes_at};
ghost use Rattle.wav_frames.specs.Chunks.{chunk_len, chunk_reading, chunks_reading, data_reading};
ghost use Rattle.rip_outside.specs.Reading.{OnlyReads};
ghost use Rattle.wav_frames.specs.Opening.{ReadingHasCause, AreWholeSamples, NoFault, TakesAtMost, Tells};
ghost use Rattle.wav_frames.specs.Passing.{IsWithin, most_taken};

use crate::fail::{WavAt, WavFail, WavKind};
use crate::format::check_format;
use crate::pieces::read_head;
use rip_outside::Shelf;

// What a chunk says of its file.
#[derive(Clone, Copy)]
pub(crate) enum Chunk {
    // The words stand in it.
    Words(WavAt),
    // The file goes on after this many bytes. `met` tells whether a format was read so far.
    Passed { met: bool, len: u64 },
}

// The length of the body of data that were streamed.
const STREAMED: u32 = 0xffff_ffff;

// Where the words of the data chunk at a place stand, whose body has this length, where this
// many bytes of the file are left.
#[tactic(auto, unfolding(crate::specs::Chunks::data_reading, crate::specs::Chunks::data_checks))]
fn find_words(met: bool, at: u64, len: u32, left: u64) -> Result<WavAt, WavFail>
    requires head { 8 ≤ left }
    requires fits { at + left < 2 ^ 64 }
    ensures answer { Tells result (data_reading met at len left) }
    ensures fault { NoFault result }
    ensures inside { IfOk result AreWholeSamples }
{
    if !met {
        Err(WavFail::Refused {
            kind: WavKind::NoFmt,
            at,
        })
    } else if len == STREAMED {
        Err(WavFail::Refused {
            kind: WavKind::StreamedLength,
            at: at + 4,
        })
    } else if left - 8 < u64::from(len) {
        Err(WavFail::Refused {
            kind: WavKind::DataPastEnd,
            at: at + 4,
        })
    } else if len % 4 != 0 {
        Err(WavFail::Refused {
            kind: WavKind::HalfSample,
            at: at + 4,
        })
    } else {
        Ok(WavAt {
            data_at: at + 8,
            words: u64::from(len / 2),
        })
    }
}

// The bytes of a chunk whose body has this length.
fn whole_len(len: u32) -> u64
    ensures { result ≡ chunk_len len }
{
    8 + u64::from(len) + u64::from(len % 2)
}

// Reads the chunk at a place, where this many bytes of the file are left.
#[tactic(auto, using(crate::proofs::TellingLaws::cause_from_none))]
fn read_chunk<S: Shelf>(
    shelf: &mut S,
    name: &str,
    met: bool,
    at: u64,
    left: u64,
) -> Result<Chunk, WavFail>
    requires head { 8 ≤ left }
    requires fits { at + left < 2 ^ 64 }
    requires inside { ForSome (S.held shelf.old) (λ files. at + left ≡ length (bytes_at name.now files)) }
    ensures answer { ForSome (S.held shelf.old) (λ files. Tells result (chunk_reading met at (drop at (bytes_at name.now files)))) }
    ensures within { IfOk result IsWithin }
    ensures only { OnlyReads S.Shelf shelf.old shelf.new }
    ensures cause { ReadingHasCause (S.faults shelf.old) (S.faults shelf.new) result }
    ensures taken { TakesAtMost (most_taken left result) result (S.taken shelf.old) (S.taken shelf.new) }
{
    let head = read_head(shelf, name, at)?;
    if head.id == *b"data" {
        return Ok(Chunk::Words(find_words(met, at, head.len, left)?));
    }
    let len = whole_len(head.len);
    if head.id == *b"fmt " && !met {
        check_format(shelf, name, at, head.len, left)?;
        return Ok(Chunk::Passed { met: true, len });
    }
    Ok(Chunk::Passed { met, len })
}

// Goes from chunk to chunk to the words of a file that ends at this place, from byte 12 on.
pub(crate) fn find_data<S: Shelf>(shelf: &mut S, name: &str, end: u64) -> Result<WavAt, WavFail>
    requires head { 12 ≤ end }
    requires inside { ForSome (S.held shelf.old) (λ files. end ≡ length (bytes_at name.now files)) }
    ensures answer { ForSome (S.held shelf.old) (λ files. Tells result (chunks_reading end end false (drop 12 (bytes_at name.now files)))) }
    ensures within { IfOk result AreWholeSamples }
    ensures only { OnlyReads S.Shelf shelf.old shelf.new }
    ensures cause { ReadingHasCause (S.faults shelf.old) (S.faults shelf.new) result }
    ensures taken { TakesAtMost (end - 12) result (S.taken shelf.old) (S.taken shelf.new) }
{
    let mut left = end - 12;
    let mut met = false;
    while left >= 8 {
        match read_chunk(shelf, name, met, end - left, left)? {
            Chunk::Words(found) => return Ok(found),
            Chunk::Passed { met: now_met, len } => {
                met = now_met;
                left = left.saturating_sub(len);
            }
        }
    }
    let kind = if met { WavKind::NoData } else { WavKind::NoFmt };
    Err(WavFail::Refused { kind, at: end })
}
