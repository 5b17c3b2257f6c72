//! The command `verify`: whether a rip agrees with a record, and its wrong words.
#![tactic(auto)]

ghost use Rattle.std.specs.Prelude.{◌≡◌, IfOk, IfSome, Some};
ghost use Rattle.rip_outside.specs.Files.{Files};
ghost use Rattle.rip_outside.specs.Reading.{OnlyReads};
ghost use Rattle.column_map.specs.Columns.{IsOffset};
ghost use Rattle.rip_inputs.specs.Opening.{lengths_of};
ghost use Rattle.engine_steps.specs.Steps.{EndsWithCause, IsAnswered, OnlyRefuses, compared};
ghost use Rattle.engine_search.specs.Agreement.{TakesCompared};
ghost use Rattle.cmd_verify.specs.VerifyOutcome.{IsVerifyOutcome, judged};
ghost use Rattle.engine_steps.specs.Outcome.{Leaves};
ghost use Rattle.engine_steps.specs.Comparing.{compared_names};

use column_map::Candidate;
use engine_search::pick_of;
use engine_steps::{Answer, Compared, Stop, compare};
use rip_outside::Shelf;
use rip_report::{Report, Status, text_of};
use std::alloc::Global;

// What is told of a rip that agrees with a record.
fn judge(alloc: Global, at: Candidate) -> Result<Answer, Stop>
    ensures tells { (files : Files) → Leaves (λ outcome. outcome ≡ judged at) files result (Some files) }
    ensures answers { IfOk result (λ answer. IsAnswered answer.status) }
    ensures cause { OnlyRefuses result }
{
    if at.errors == 0 {
        let text = text_of(alloc, &Report::Verified { at })?;
        Ok(Answer {
            status: Status::Done,
            text,
        })
    } else {
        Err(Stop::Refused(Status::Mendable {
            offset: at.offset,
            errors: at.errors,
            columns: at.columns,
        }))
    }
}

/// Tells whether a rip agrees with a record, at the given offset or at the only one, and its wrong words.
pub fn verify<S: Shelf>(
    alloc: Global,
    shelf: &mut S,
    input: &str,
    rec: &str,
    offset: Option<i32>,
) -> Result<Answer, Stop>
    requires { IfSome offset IsOffset }
    ensures leaves { IfSome (S.held shelf.old) (λ files. Leaves (IsVerifyOutcome input.now rec.now offset files) files result (S.held shelf.new)) }
    ensures cause { EndsWithCause (S.faults shelf.old) (S.faults shelf.new) result }
    ensures only { OnlyReads S.Shelf shelf.old shelf.new }
    ensures taken { IfSome (S.held shelf.old) (λ files. TakesCompared (compared input.now rec.now files) offset 3 (lengths_of (compared_names input.now rec.now files) files) result (S.taken shelf.old) (S.taken shelf.new)) }
{
    let Compared {
        image,
        shape,
        parity,
        seal,
        ..
    } = compare(alloc, shelf, input, rec)?;
    let at = pick_of(alloc, shelf, &image, shape, parity, seal, offset)?;
    judge(alloc, at)
}
