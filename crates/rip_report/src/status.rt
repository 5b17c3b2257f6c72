// What a run comes to.
ghost use Rattle.std.specs.Prelude.{◌≡◌};
ghost use Rattle.rip_report.specs.Texts.{exit_number};

use batch_list::ListKind;
use cue_sheet::CueKind;
use disc_toc::{Differs, LayoutKind};
use parity_store::RecordKind;
use rip_outside::{Name, ShelfCall};
use wav_frames::WavKind;

/// Why a response isn't read.
#[derive(Clone, Copy, Debug, PartialEq, Eq)]
pub enum ResponseKind {
    /// The file has more bytes than a response may have.
    TooLong,
    /// The block that begins with this byte, counted from 0, goes on past the end.
    Cut { at: u64 },
}

/// What a run came to.
#[derive(Debug, Drop, PartialEq, Eq)]
pub enum Status {
    /// All was done.
    Done,
    /// The word with this index breaks a rule of the command line, or is missing.
    Usage {
        word: u32,
    },
    /// A file to be read isn't there.
    Missing {
        name: Name,
    },
    /// A cue sheet isn't read: its line with this number, counted from 1, or with 0 the sheet as a whole.
    CueRefused {
        line: u32,
        kind: CueKind,
    },
    /// A WAV file isn't of a kind that is read. The place is counted in bytes.
    WavRefused {
        name: Name,
        kind: WavKind,
        at: u64,
    },
    /// The audio is no disc's, or is too short for parity.
    LayoutRefused {
        kind: LayoutKind,
    },
    /// The record to be read isn't there.
    NoRecord {
        name: Name,
    },
    /// The file is no record.
    RecordRefused {
        kind: RecordKind,
    },
    /// The output's name isn't free.
    OutExists {
        name: Name,
    },
    /// The record is of a disc with another layout.
    OtherLayout {
        differs: Differs,
    },
    /// The record that was to get a seal has one.
    Sealed {
        name: Name,
    },
    /// The rip agrees with the record at no offset.
    NoCandidate,
    /// The rip agrees with the record at these two offsets, and perhaps at later ones.
    Several {
        first: i32,
        second: i32,
    },
    /// The rip isn't near the record at the given offset: no words fit this column.
    NotNear {
        column: u32,
    },
    /// The rip agrees with the record, and has so many wrong words, in so many columns.
    Mendable {
        offset: i32,
        errors: u32,
        columns: u32,
    },
    /// The rip is near the record at the given offset, and the words that fit don't have the record's seal.
    SealDiffers,
    /// The response to be read isn't there.
    NoResponse {
        name: Name,
    },
    /// The file is no response.
    ResponseRefused {
        kind: ResponseKind,
    },
    /// So many records of a store are bad.
    BadRecords {
        bad: u64,
    },
    /// The list of discs isn't read.
    ListRefused {
        kind: ListKind,
    },
    /// So many discs of a list weren't done.
    BatchFailed {
        failed: u32,
    },
    /// A call that reads failed.
    ReadFault {
        call: ShelfCall,
    },
    /// A call that writes failed.
    WriteFault {
        call: ShelfCall,
    },
    /// The output didn't take the text.
    SinkFault,
    /// Memory was wanting.
    WantOfMemory,
}

impl Status {
    /// The number with which the program ends.
    pub fn number(&self) -> u8
        ensures { result ≡ exit_number self.now }
    {
        match self {
            Status::Done => 0,
            Status::Usage { word: _ } => 10,
            Status::Missing { name: _ } => 11,
            Status::CueRefused { line: _, kind: _ } => 12,
            Status::WavRefused {
                name: _,
                kind: _,
                at: _,
            } => 13,
            Status::LayoutRefused { kind: _ } => 14,
            Status::NoRecord { name: _ } => 15,
            Status::RecordRefused { kind: _ } => 16,
            Status::OutExists { name: _ } => 17,
            Status::OtherLayout { differs: _ } => 18,
            Status::Sealed { name: _ } => 19,
            Status::NoCandidate => 20,
            Status::Several {
                first: _,
                second: _,
            } => 21,
            Status::NotNear { column: _ } => 22,
            Status::Mendable {
                offset: _,
                errors: _,
                columns: _,
            } => 23,
            Status::SealDiffers => 24,
            Status::NoResponse { name: _ } => 25,
            Status::ResponseRefused { kind: _ } => 26,
            Status::BadRecords { bad: _ } => 27,
            Status::ListRefused { kind: _ } => 28,
            Status::BatchFailed { failed: _ } => 29,
            Status::ReadFault { call: _ } => 30,
            Status::WriteFault { call: _ } => 31,
            Status::SinkFault => 32,
            Status::WantOfMemory => 40,
        }
    }
}
