// The kinds of refusals by the names with which they are printed.
ghost use Rattle.std.specs.Prelude.{◌≡◌};
ghost use Rattle.rip_report.specs.Kinds.{cue_kind_text, wav_kind_text};

use cue_sheet::CueKind;
use wav_frames::WavKind;

pub(crate) fn cue_kind_name(kind: CueKind) -> &'static str
    ensures { result.now ≡ cue_kind_text kind }
{
    match kind {
        CueKind::SheetTooLong => "SheetTooLong",
        CueKind::UnknownWord => "UnknownWord",
        CueKind::BadQuote => "BadQuote",
        CueKind::NameNotText => "NameNotText",
        CueKind::NotWave => "NotWave",
        CueKind::TooManyFiles => "TooManyFiles",
        CueKind::NoFile => "NoFile",
        CueKind::BadNumber => "BadNumber",
        CueKind::DataTrack => "DataTrack",
        CueKind::TrackOrder => "TrackOrder",
        CueKind::NoTrack => "NoTrack",
        CueKind::IndexOrder => "IndexOrder",
        CueKind::BadTime => "BadTime",
        CueKind::NoIndex01 => "NoIndex01",
        CueKind::LatePregap => "LatePregap",
        CueKind::Postgap => "Postgap",
        CueKind::NoTracks => "NoTracks",
    }
}

pub(crate) fn wav_kind_name(kind: WavKind) -> &'static str
    ensures { result.now ≡ wav_kind_text kind }
{
    match kind {
        WavKind::NotRiff => "NotRiff",
        WavKind::NotWave => "NotWave",
        WavKind::NoFmt => "NoFmt",
        WavKind::FmtShort => "FmtShort",
        WavKind::NotPcm => "NotPcm",
        WavKind::NotStereo => "NotStereo",
        WavKind::NotCdRate => "NotCdRate",
        WavKind::Not16Bit => "Not16Bit",
        WavKind::NoData => "NoData",
        WavKind::DataPastEnd => "DataPastEnd",
        WavKind::StreamedLength => "StreamedLength",
        WavKind::HalfSample => "HalfSample",
    }
}
