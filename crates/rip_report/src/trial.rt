// The lines of a trial.
ghost use Rattle.std.specs.Prelude.{◌≡◌, IfOk};
ghost use Rattle.std.specs.String.{string_bytes};
ghost use Rattle.rip_report.specs.Trial.{trial_end, trial_line, trial_lines};

use crate::report::TrialResult;
use crate::texts::{candidate_line, several_line, sign_of, size_of};
use column_map::Candidate;
use std::alloc::{AllocError, Global};

fn trial_line(
    alloc: Global,
    sectors: u32,
    seed: u32,
    shift: i32,
    hits: u32,
) -> Result<String, AllocError>
    ensures { IfOk result (λ made. string_bytes made ≡ trial_line sectors seed shift hits) }
{
    let sign = sign_of(shift);
    let size = size_of(shift);
    format!(in alloc; "trial sectors {sectors} seed {seed} shift {sign}{size} hits {hits}\n")
}

fn mended_lines(alloc: Global, at: Candidate, same: bool) -> Result<String, AllocError>
    ensures { IfOk result (λ made. string_bytes made ≡ trial_end (TrialResult.Mended at same)) }
{
    let mut text = candidate_line(alloc, at.offset, at.errors, at.columns)?;
    text.push_str(if same { "same yes\n" } else { "same no\n" })?;
    Ok(text)
}

fn end_lines(alloc: Global, end: TrialResult) -> Result<String, AllocError>
    ensures { IfOk result (λ made. string_bytes made ≡ trial_end end) }
{
    match end {
        TrialResult::Mended { at, same } => mended_lines(alloc, at, same),
        TrialResult::NoneNear => String::from_str(alloc, "none\n"),
        TrialResult::Several { first, second } => several_line(alloc, first, second),
    }
}

pub(crate) fn trial_lines(
    alloc: Global,
    sectors: u32,
    seed: u32,
    shift: i32,
    hits: u32,
    end: TrialResult,
) -> Result<String, AllocError>
    ensures { IfOk result (λ made. string_bytes made ≡ trial_lines sectors seed shift hits end) }
{
    let mut text = trial_line(alloc, sectors, seed, shift, hits)?;
    let lines = end_lines(alloc, end)?;
    text.push_str(lines.as_str())?;
    Ok(text)
}
