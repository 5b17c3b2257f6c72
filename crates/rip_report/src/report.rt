// What a run reports.
ghost use Rattle.std.specs.Prelude.{◌≡◌, IfOk};
ghost use Rattle.rip_report.specs.Report.{IsReported, report_text};

use crate::matches::matches_lines;
use crate::refusals::refusal_lines;
use crate::status::Status;
use crate::sums::sums_lines;
use crate::texts::{
    joined_line, mendable_lines, named_lines, offsets_lines, printed, registered_line, split_line,
    verified_lines,
};
use crate::trial::trial_lines;
use accurip_match::Matches;
use accurip_sums::SumList;
use column_map::{Candidate, CandidateList};
use disc_toc::Layout;
use rip_outside::{Name, Oom, Text};
use std::alloc::Global;

/// What became of the rip of a trial.
#[derive(Clone, Copy, Debug, PartialEq, Eq)]
pub enum TrialResult {
    /// It was mended here, and its words are the disc's, or not.
    Mended { at: Candidate, same: bool },
    /// It agrees with the record at no offset.
    NoneNear,
    /// It agrees with the record at these two offsets, and perhaps at later ones.
    Several { first: i32, second: i32 },
}

/// What a run has to tell, which its text says in lines.
#[derive(Debug, Drop)]
pub enum Report {
    /// A record stands under this name, of a disc with so many sectors of audio, and with so many parity words for each
    /// column.
    Registered {
        name: Name,
        sectors: u32,
        npar: u32,
    },
    /// The rip is near the record here, and has no wrong word.
    Verified {
        at: Candidate,
    },
    /// The rip is near the record here, and has wrong words.
    Mendable {
        at: Candidate,
    },
    /// The offsets at which the rip is near the record.
    Offsets {
        list: CandidateList,
    },
    /// The mended rip stands under this name.
    Written {
        at: Candidate,
        name: Name,
    },
    /// The record of this name got the rip's seal.
    Upgraded {
        at: Candidate,
        name: Name,
    },
    /// The rip's tracks stand in this folder, so many of them, with their sheet.
    SplitInto {
        folder: Name,
        tracks: u32,
    },
    /// The rip stands under this name as one file of so many sectors, with its sheet.
    Joined {
        name: Name,
        sectors: u32,
    },
    /// The ids of the disc with this layout, and the sums of its tracks, one pair for each.
    SumsOf {
        layout: Layout,
        sums: SumList,
    },
    /// The matches of a rip with a response.
    Matched {
        list: Matches,
    },
    /// A trial with an image of so many sectors, made from this seed, whose rip is late by so many samples and has so
    /// many wrong words, and what it came to.
    TrialOf {
        sectors: u32,
        seed: u32,
        shift: i32,
        hits: u32,
        result: TrialResult,
    },
    /// The run was refused, or a call failed.
    Refusal {
        status: Status,
    },
}

/// The text of a report, or Oom for want of memory. Each of its lines ends with a line feed.
pub fn text_of(alloc: Global, report: &Report) -> Result<Text, Oom>
    requires { IsReported report.now }
    ensures { IfOk result (λ text. text ≡ report_text report.now) }
{
    printed(match report {
        Report::Registered {
            name,
            sectors,
            npar,
        } => registered_line(alloc, name.as_str(), *sectors, *npar),
        Report::Verified { at } => verified_lines(alloc, *at),
        Report::Mendable { at } => mendable_lines(alloc, *at),
        Report::Offsets { list } => offsets_lines(alloc, list.as_slice()),
        Report::Written { at, name } => named_lines(alloc, *at, "written", name.as_str()),
        Report::Upgraded { at, name } => named_lines(alloc, *at, "upgraded", name.as_str()),
        Report::SplitInto { folder, tracks } => split_line(alloc, folder.as_str(), *tracks),
        Report::Joined { name, sectors } => joined_line(alloc, name.as_str(), *sectors),
        Report::SumsOf { layout, sums } => sums_lines(alloc, layout, sums.as_slice()),
        Report::Matched { list } => matches_lines(alloc, list.as_slice()),
        Report::TrialOf {
            sectors,
            seed,
            shift,
            hits,
            result,
        } => trial_lines(alloc, *sectors, *seed, *shift, *hits, *result),
        Report::Refusal { status } => refusal_lines(alloc, status),
    })
}
