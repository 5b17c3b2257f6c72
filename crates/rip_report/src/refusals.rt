// The lines of refusals.
ghost use Rattle.std.specs.Prelude.{◌≡◌, IfOk};
ghost use Rattle.std.specs.String.{string_bytes};
ghost use Rattle.rip_report.specs.Texts.{cue_line, other_layout_line, refusal_line, wav_line};

use crate::batch::list_line;
use crate::kinds::{cue_kind_name, wav_kind_name};
use crate::status::{ResponseKind, Status};
use crate::texts::{mendable_lines, printed, several_line};
use column_map::Candidate;
use disc_toc::{Differs, LayoutKind, LayoutPart};
use parity_store::RecordKind;
use rip_outside::{Oom, Text};
use std::alloc::{AllocError, Global};

fn cue_line(alloc: Global, line: u32, kind: &str) -> Result<String, AllocError>
    ensures { IfOk result (λ made. string_bytes made ≡ cue_line line kind.now) }
{
    format!(in alloc; "cue line {line} {kind}\n")
}

fn wav_line(alloc: Global, name: &str, kind: &str, at: u64) -> Result<String, AllocError>
    ensures { IfOk result (λ made. string_bytes made ≡ wav_line name.now kind.now at) }
{
    format!(in alloc; "wav {name} at {at} {kind}\n")
}

fn layout_line(alloc: Global, kind: LayoutKind) -> Result<String, AllocError>
    ensures { IfOk result (λ made. string_bytes made ≡ refusal_line (Status.LayoutRefused kind)) }
{
    match kind {
        LayoutKind::NotWholeSectors { file } => {
            format!(in alloc; "layout NotWholeSectors file {file}\n")
        }
        LayoutKind::IndexPastEnd { track } => {
            format!(in alloc; "layout IndexPastEnd track {track}\n")
        }
        LayoutKind::StartOrder { track } => format!(in alloc; "layout StartOrder track {track}\n"),
        LayoutKind::TooLong { sectors } => format!(in alloc; "layout TooLong sectors {sectors}\n"),
        LayoutKind::TooShort { sectors } => {
            format!(in alloc; "layout TooShort sectors {sectors}\n")
        }
    }
}

pub(crate) fn record_line(alloc: Global, kind: RecordKind) -> Result<String, AllocError>
    ensures { IfOk result (λ made. string_bytes made ≡ refusal_line (Status.RecordRefused kind)) }
{
    match kind {
        RecordKind::Mark => String::from_str(alloc, "record Mark\n"),
        RecordKind::Length { found, wanted } => {
            format!(in alloc; "record Length {found} wanted {wanted}\n")
        }
        RecordKind::Npar { found } => format!(in alloc; "record Npar {found}\n"),
        RecordKind::Tracks { found } => format!(in alloc; "record Tracks {found}\n"),
        RecordKind::Spare { found } => format!(in alloc; "record Spare {found}\n"),
        RecordKind::Layout => String::from_str(alloc, "record Layout\n"),
        RecordKind::Digest => String::from_str(alloc, "record Digest\n"),
    }
}

fn response_line(alloc: Global, kind: ResponseKind) -> Result<String, AllocError>
    ensures { IfOk result (λ made. string_bytes made ≡ refusal_line (Status.ResponseRefused kind)) }
{
    match kind {
        ResponseKind::TooLong => String::from_str(alloc, "response TooLong\n"),
        ResponseKind::Cut { at } => format!(in alloc; "response Cut at {at}\n"),
    }
}

fn other_layout_line(alloc: Global, differs: Differs) -> Result<String, AllocError>
    ensures { IfOk result (λ made. string_bytes made ≡ other_layout_line differs.part differs.rip differs.kept) }
{
    let rip = differs.rip;
    let kept = differs.kept;
    match differs.part {
        LayoutPart::Pregap => format!(in alloc; "other layout pregap rip {rip} kept {kept}\n"),
        LayoutPart::Sectors => format!(in alloc; "other layout sectors rip {rip} kept {kept}\n"),
        LayoutPart::Tracks => format!(in alloc; "other layout tracks rip {rip} kept {kept}\n"),
        LayoutPart::Start { track } => {
            format!(in alloc; "other layout start {track} rip {rip} kept {kept}\n")
        }
    }
}

pub(crate) fn refusal_lines(alloc: Global, status: &Status) -> Result<String, AllocError>
    ensures { IfOk result (λ made. string_bytes made ≡ refusal_line status.now) }
{
    match status {
        Status::Usage { word } => format!(in alloc; "usage word {word}\n"),
        Status::Missing { name } => {
            let name = name.as_str();
            format!(in alloc; "missing {name}\n")
        }
        Status::CueRefused { line, kind } => cue_line(alloc, *line, cue_kind_name(*kind)),
        Status::WavRefused { name, kind, at } => {
            wav_line(alloc, name.as_str(), wav_kind_name(*kind), *at)
        }
        Status::LayoutRefused { kind } => layout_line(alloc, *kind),
        Status::NoRecord { name } => {
            let name = name.as_str();
            format!(in alloc; "no record {name}\n")
        }
        Status::RecordRefused { kind } => record_line(alloc, *kind),
        Status::OutExists { name } => {
            let name = name.as_str();
            format!(in alloc; "exists {name}\n")
        }
        Status::OtherLayout { differs } => other_layout_line(alloc, *differs),
        Status::Sealed { name } => {
            let name = name.as_str();
            format!(in alloc; "sealed {name}\n")
        }
        Status::NoCandidate => String::from_str(alloc, "no candidate\n"),
        Status::Several { first, second } => several_line(alloc, *first, *second),
        Status::NotNear { column } => format!(in alloc; "not near column {column}\n"),
        Status::Mendable {
            offset,
            errors,
            columns,
        } => mendable_lines(
            alloc,
            Candidate {
                offset: *offset,
                errors: *errors,
                columns: *columns,
            },
        ),
        Status::SealDiffers => String::from_str(alloc, "seal differs\n"),
        Status::NoResponse { name } => {
            let name = name.as_str();
            format!(in alloc; "no response {name}\n")
        }
        Status::ResponseRefused { kind } => response_line(alloc, *kind),
        Status::ListRefused { kind } => list_line(alloc, *kind),
        Status::ReadFault { call: _ } => String::from_str(alloc, "read fault\n"),
        Status::WriteFault { call: _ } => String::from_str(alloc, "write fault\n"),
        Status::BadRecords { bad: _ }
        | Status::BatchFailed { failed: _ }
        | Status::Done
        | Status::SinkFault
        | Status::WantOfMemory => String::from_str(alloc, ""),
    }
}

/// The text of a refusal, or Oom for want of memory. Success, bad records, failed discs, a failed output and want of memory
/// have no line.
pub fn refusal_text(alloc: Global, status: &Status) -> Result<Text, Oom>
    ensures { IfOk result (λ text. text ≡ refusal_line status.now) }
{
    printed(refusal_lines(alloc, status))
}
