// The format chunk.
ghost use Rattle.std.specs.Prelude.{◌≡◌, ◌+◌, ◌-◌, ◌^◌, ◌<◌, ◌≤◌, min, length, drop, Ok};
ghost use Rattle.std.specs.Option.{ForSome};
ghost use Rattle.rip_outside.specs.Files.{bytes_at};
ghost use Rattle.wav_frames.specs.Chunks.{passed, format_checks, sample_checks, subformat_checks, tag_checks};
ghost use Rattle.wav_frames.specs.Pieces.{u16_at};
ghost use Rattle.rip_outside.specs.Reading.{OnlyReads};
ghost use Rattle.wav_frames.specs.Opening.{ReadingHasCause, NoFault, TakesAtMost, Tells};

use crate::fail::{WavFail, WavKind};
use crate::pieces::{Format, read_format, read_piece};
use rip_outside::Shelf;

// The format tag of plain PCM, and the one that says that a subformat follows.
const PCM: u16 = 1;

const EXTENSIBLE: u16 = 0xfffe;

// The subformat of plain PCM.
const PCM_SUBFORMAT: [u8; 16] = [
    0x01, 0x00, 0x00, 0x00, 0x00, 0x00, 0x10, 0x00, 0x80, 0x00, 0x00, 0xaa, 0x00, 0x38, 0x9b, 0x71,
];

// Tests the subformat of the format chunk at a place, whose body has this length.
#[tactic(auto, unfolding(crate::specs::Chunks::subformat_checks))]
fn check_subformat<S: Shelf>(shelf: &mut S, name: &str, at: u64, len: u32) -> Result<(), WavFail>
    requires fits { at + 8 + len < 2 ^ 64 }
    requires inside { ForSome (S.held shelf.old) (λ files. at + 8 + len ≤ length (bytes_at name.now files)) }
    ensures answer { ForSome (S.held shelf.old) (λ files. Tells result (passed (subformat_checks at len (drop at (bytes_at name.now files))) (Ok tt))) }
    ensures only { OnlyReads S.Shelf shelf.old shelf.new }
    ensures cause { ReadingHasCause (S.faults shelf.old) (S.faults shelf.new) result }
    ensures taken { TakesAtMost (len - 16) result (S.taken shelf.old) (S.taken shelf.new) }
{
    if len < 40 {
        return Err(WavFail::Refused {
            kind: WavKind::FmtShort,
            at,
        });
    }
    let mut subformat = [0; 16];
    read_piece(shelf, name, at + 32, &mut subformat)?;
    if subformat == PCM_SUBFORMAT {
        Ok(())
    } else {
        Err(WavFail::Refused {
            kind: WavKind::NotPcm,
            at: at + 32,
        })
    }
}

// Tests the fields of the format chunk at a place that say how the samples stand.
#[tactic(auto, unfolding(crate::specs::Chunks::sample_checks))]
fn check_samples(format: &Format, at: u64) -> Result<(), WavFail>
    requires { at + 24 < 2 ^ 64 }
    ensures answer { Tells result (passed (sample_checks at format.now.channels format.now.rate format.now.bits) (Ok tt)) }
    ensures fault { NoFault result }
{
    if format.channels != 2 {
        Err(WavFail::Refused {
            kind: WavKind::NotStereo,
            at: at + 10,
        })
    } else if format.rate != 44_100 {
        Err(WavFail::Refused {
            kind: WavKind::NotCdRate,
            at: at + 12,
        })
    } else if format.bits != 16 {
        Err(WavFail::Refused {
            kind: WavKind::Not16Bit,
            at: at + 22,
        })
    } else {
        Ok(())
    }
}

// Tests the format tag of the format chunk at a place, whose body has this length.
fn check_tag<S: Shelf>(
    shelf: &mut S,
    name: &str,
    at: u64,
    len: u32,
    tag: u16,
) -> Result<(), WavFail>
    requires fields { 16 ≤ len }
    requires fits { at + 8 + len < 2 ^ 64 }
    requires inside { ForSome (S.held shelf.old) (λ files. at + 8 + len ≤ length (bytes_at name.now files)) }
    requires tag { ForSome (S.held shelf.old) (λ files. tag ≡ u16_at 8 (drop at (bytes_at name.now files))) }
    ensures answer { ForSome (S.held shelf.old) (λ files. Tells result (passed (tag_checks at len (drop at (bytes_at name.now files))) (Ok tt))) }
    ensures only { OnlyReads S.Shelf shelf.old shelf.new }
    ensures cause { ReadingHasCause (S.faults shelf.old) (S.faults shelf.new) result }
    ensures taken { TakesAtMost (len - 16) result (S.taken shelf.old) (S.taken shelf.new) }
{
    if tag == EXTENSIBLE {
        check_subformat(shelf, name, at, len)
    } else if tag == PCM {
        Ok(())
    } else {
        Err(WavFail::Refused {
            kind: WavKind::NotPcm,
            at: at + 8,
        })
    }
}

// Tests the format chunk at a place, whose body has this length, where this many bytes of the
// file are left.
#[tactic(auto, using(crate::proofs::TellingLaws::cause_from_none))]
pub(crate) fn check_format<S: Shelf>(
    shelf: &mut S,
    name: &str,
    at: u64,
    len: u32,
    left: u64,
) -> Result<(), WavFail>
    requires head { 8 ≤ left }
    requires fits { at + left < 2 ^ 64 }
    requires inside { ForSome (S.held shelf.old) (λ files. at + left ≡ length (bytes_at name.now files)) }
    ensures answer { ForSome (S.held shelf.old) (λ files. Tells result (passed (format_checks at len left (drop at (bytes_at name.now files))) (Ok tt))) }
    ensures only { OnlyReads S.Shelf shelf.old shelf.new }
    ensures cause { ReadingHasCause (S.faults shelf.old) (S.faults shelf.new) result }
    ensures taken { TakesAtMost (min len (left - 8)) result (S.taken shelf.old) (S.taken shelf.new) }
{
    if len < 16 || left - 8 < u64::from(len) {
        return Err(WavFail::Refused {
            kind: WavKind::FmtShort,
            at,
        });
    }
    let format = read_format(shelf, name, at)?;
    check_tag(shelf, name, at, len, format.tag)?;
    check_samples(&format, at)
}
