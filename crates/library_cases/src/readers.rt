// Bytes that no reader takes: of WAV files, sheets and records, each on its reader.
use cue_sheet::{CueFail, CueKind, read_cue};
use disc_toc::one_track;
use parity_store::{Parity, Record, RecordFail, RecordKind, read_record, record_bytes};
use rip_memory::{MemoryShelf, fill};
use std::alloc::Global;
use std::test::Fail;
use syndrome_stream::Table;
use wav_frames::{WavFail, WavKind, open_wav};

// A file, and the refusal and its place.
const WAVS: [(&[u8], WavKind, u64); 5] = [
    (b"RIFF\0\0\0\0", WavKind::NotWave, 8),
    (
        b"RIFF\0\0\0\0WAVEfmt \x0f\0\0\0\x01\0\x02\0\x44\xac\0\0\x10\xb1\x02\0\x04\0\x10\0",
        WavKind::FmtShort,
        12,
    ),
    (
        b"RIFF\0\0\0\0WAVEfmt \x12\0\0\0\xfe\xff\x02\0\x44\xac\0\0\x10\xb1\x02\0\x04\0\x10\0\0\0",
        WavKind::FmtShort,
        12,
    ),
    (b"RIFF\0\0\0\0WAVEdata\0\0\0\0", WavKind::NoFmt, 12),
    (
        b"RIFF\0\0\0\0WAVEfmt \x10\0\0\0\x01\0\x02\0\x44\xac\0\0\x10\xb1\x02\0\x04\0\x10\0data\x03\0\0\0\0\0\0",
        WavKind::HalfSample,
        40,
    ),
];

#[test]
fn no_wav_file_is_read(rt: HostRuntime) -> Result<(), Fail> {
    let mut files = MemoryShelf::new(rt.alloc());
    for (bytes, kind, at) in WAVS {
        fill(&mut files, "x.wav", bytes)?;
        let refused = WavFail::Refused { kind, at };
        assert_eq!(rt; open_wav(&mut files, "x.wav"), Err(refused));
    }
    Ok(())
}

// A line that a sheet has so many times, and the refused line and why.
const SHEETS: [(&[u8], usize, u32, CueKind); 4] = [
    (b"\0\n", 1, 1, CueKind::UnknownWord),
    (b"FILE a WAVE\n", 101, 101, CueKind::TooManyFiles),
    (b"FILE a WAVE\nTRACK 100 AUDIO\n", 1, 2, CueKind::BadNumber),
    (b"\xef\xbb\xbf", 1, 0, CueKind::NoTracks),
];

#[test]
fn no_sheet_is_read(rt: HostRuntime) -> Result<(), Fail> {
    for (text, times, line, kind) in SHEETS {
        let mut sheet = Vec::new(rt.alloc());
        for _ in 0..times {
            sheet.extend_from_slice(text)?;
        }
        assert!(rt; sheet.len() <= 1_048_576);
        let refused = read_cue(rt.alloc(), &sheet).err();
        assert_eq!(rt; refused, Some(CueFail::Refused { line, kind }));
    }
    Ok(())
}

// Where bytes of a record are put, which ones, after how many the file ends, and why it is refused.
const RECORDS: [(usize, &[u8], usize, RecordKind); 9] = [
    (0, b"", 7, RecordKind::Mark),
    (
        0,
        b"",
        19,
        RecordKind::Length {
            found: 19,
            wanted: 20,
        },
    ),
    (8, b"\x05", LENGTH, RecordKind::Npar { found: 5 }),
    (8, b"\x20", LENGTH, RecordKind::Npar { found: 32 }),
    (10, b"\0", LENGTH, RecordKind::Tracks { found: 0 }),
    (10, b"\x64", LENGTH, RecordKind::Tracks { found: 100 }),
    (11, b"\x07", LENGTH, RecordKind::Spare { found: 7 }),
    (16, b"\x1d", LENGTH, RecordKind::Layout),
    (16, b"\xff\xff\xff\xff", LENGTH, RecordKind::Layout),
];

// The length of a record of one track with eight parity words for each column and no seal.
const LENGTH: usize = 188_216;

// The record of 100 sectors of zeros with other bytes at a place, cut after so many.
fn changed(alloc: Global, at: usize, with: &[u8], end: usize) -> Result<Vec<u8>, Fail> {
    let record = Record {
        layout: one_track(alloc, 117_600)?,
        parity: Parity::Eight(Table::zero(alloc)?),
        seal: None,
    };
    let mut bytes = record_bytes(alloc, &record)?;
    for (place, byte) in bytes.iter_mut().skip(at).zip(with) {
        *place = *byte;
    }
    bytes.truncate(end);
    Ok(bytes)
}

#[test]
fn no_record_is_read(rt: HostRuntime) -> Result<(), Fail> {
    let alloc = rt.alloc();
    for (at, with, end, kind) in RECORDS {
        let bytes = changed(alloc, at, with, end)?;
        assert!(rt; bytes.len() <= 800_000);
        let refused = read_record(alloc, &bytes, bytes.len() as u64).err();
        assert_eq!(rt; refused, Some(RecordFail::Refused { kind }));
    }
    Ok(())
}
