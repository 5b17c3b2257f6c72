// Why a text is no cue sheet.

/// What is wrong with a sheet.
#[derive(Clone, Copy, Debug, PartialEq, Eq)]
pub enum CueKind {
    /// The sheet has more bytes than are read. `read_cue` never says so.
    SheetTooLong,
    /// A line begins with a word that is no command.
    UnknownWord,
    /// A FILE line has no name, an empty one, or no closing quote mark.
    BadQuote,
    /// A file's name isn't UTF-8.
    NameNotText,
    /// What stands behind the name in a FILE line isn't the word `WAVE` alone.
    NotWave,
    /// There are more than a hundred files.
    TooManyFiles,
    /// A track stands before the first file.
    NoFile,
    /// A number isn't one or two digits.
    BadNumber,
    /// What stands behind the number in a TRACK line isn't the word `AUDIO` alone.
    DataTrack,
    /// The tracks don't count from 1 on.
    TrackOrder,
    /// An index or a pregap stands before the first track.
    NoTrack,
    /// A track's indexes don't count from 0 or 1 on, or their times fall within a file.
    IndexOrder,
    /// A time isn't minutes, seconds and frames.
    BadTime,
    /// A track has no INDEX 01.
    NoIndex01,
    /// A pregap stands after another, after INDEX 01, or not in the first track.
    LatePregap,
    /// There is a POSTGAP line.
    Postgap,
    /// There is no track.
    NoTracks,
}

/// Why there is no sheet.
#[derive(Clone, Copy, Debug, PartialEq, Eq)]
pub enum CueFail {
    /// The line with this number, counted from 1, is refused, or with 0 the sheet as a whole.
    Refused { line: u32, kind: CueKind },
    /// Memory was wanting.
    Oom,
}

/// Why a line isn't read.
#[derive(Clone, Copy)]
pub enum LineFail {
    Refused { kind: CueKind },
    Oom,
}
