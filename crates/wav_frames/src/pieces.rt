// Pieces of a file.
ghost use Rattle.std.specs.Prelude.{◌≡◌, ◌+◌, ◌^◌, ◌<◌, ◌≤◌, length, drop, take, Ok, OnOk};
ghost use Rattle.std.specs.Option.{ForSome};
ghost use Rattle.rip_outside.specs.Files.{bytes_at};
ghost use Rattle.rip_outside.specs.Reading.{OnlyReads};
ghost use Rattle.wav_frames.specs.Opening.{ReadingHasCause, TakesAtMost, Tells};
ghost use Rattle.wav_frames.specs.Pieces.{head_of, format_of};

use crate::fail::WavFail;
use byteorder::{ByteOrder, LittleEndian};
use rip_outside::{Shelf, ShelfCall};

// Fills the buffer with a file's bytes from a place on.
pub(crate) fn read_piece<S: Shelf>(
    shelf: &mut S,
    name: &str,
    at: u64,
    buf: &mut [u8],
) -> Result<(), WavFail>
    requires inside { ForSome (S.held shelf.old) (λ files. at + length buf.old ≤ length (bytes_at name.now files)) }
    ensures answer { ForSome (S.held shelf.old) (λ files. Tells result (Ok tt)) }
    ensures bytes { ForSome (S.held shelf.old) (λ files. OnOk result (buf.new ≡ take (length buf.old) (drop at (bytes_at name.now files)))) }
    ensures only { OnlyReads S.Shelf shelf.old shelf.new }
    ensures cause { ReadingHasCause (S.faults shelf.old) (S.faults shelf.new) result }
    ensures taken { TakesAtMost (length buf.old) result (S.taken shelf.old) (S.taken shelf.new) }
{
    match shelf.read_at(name, at, buf) {
        Ok(()) => Ok(()),
        Err(_) => Err(WavFail::ReadFault {
            call: ShelfCall::ReadAt,
        }),
    }
}

// The head of a chunk: its id, and the length of its body.
#[derive(Clone, Copy)]
pub(crate) struct Head {
    pub(crate) id: [u8; 4],
    pub(crate) len: u32,
}

// The head of the chunk at a place.
pub(crate) fn read_head<S: Shelf>(shelf: &mut S, name: &str, at: u64) -> Result<Head, WavFail>
    requires inside { ForSome (S.held shelf.old) (λ files. at + 8 ≤ length (bytes_at name.now files)) }
    ensures answer { ForSome (S.held shelf.old) (λ files. Tells result (Ok (head_of (drop at (bytes_at name.now files))))) }
    ensures only { OnlyReads S.Shelf shelf.old shelf.new }
    ensures cause { ReadingHasCause (S.faults shelf.old) (S.faults shelf.new) result }
    ensures taken { TakesAtMost 8 result (S.taken shelf.old) (S.taken shelf.new) }
{
    let mut head = [0; 8];
    read_piece(shelf, name, at, &mut head)?;
    let mut id = [0; 4];
    id.copy_from_slice(&head[..4]);
    Ok(Head {
        id,
        len: LittleEndian::read_u32(&head[4..]),
    })
}

// The first fields of a format chunk.
#[derive(Clone, Copy)]
pub(crate) struct Format {
    pub(crate) tag: u16,
    pub(crate) channels: u16,
    pub(crate) rate: u32,
    pub(crate) bits: u16,
}

// The fields of the format chunk at a place, whose body has at least 16 bytes.
pub(crate) fn read_format<S: Shelf>(shelf: &mut S, name: &str, at: u64) -> Result<Format, WavFail>
    requires fits { at + 24 < 2 ^ 64 }
    requires inside { ForSome (S.held shelf.old) (λ files. at + 24 ≤ length (bytes_at name.now files)) }
    ensures answer { ForSome (S.held shelf.old) (λ files. Tells result (Ok (format_of (drop at (bytes_at name.now files))))) }
    ensures only { OnlyReads S.Shelf shelf.old shelf.new }
    ensures cause { ReadingHasCause (S.faults shelf.old) (S.faults shelf.new) result }
    ensures taken { TakesAtMost 16 result (S.taken shelf.old) (S.taken shelf.new) }
{
    let mut body = [0; 16];
    read_piece(shelf, name, at + 8, &mut body)?;
    Ok(Format {
        tag: LittleEndian::read_u16(&body),
        channels: LittleEndian::read_u16(&body[2..]),
        rate: LittleEndian::read_u32(&body[4..]),
        bits: LittleEndian::read_u16(&body[14..]),
    })
}
