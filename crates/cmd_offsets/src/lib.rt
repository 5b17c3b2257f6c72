//! The command `offsets`: all offsets at which a rip agrees with a record.
#![tactic(auto)]

ghost use Rattle.std.specs.Prelude.{◌≡◌, IfOk, IfSome, None, Some};
ghost use Rattle.rip_outside.specs.Files.{Files};
ghost use Rattle.rip_outside.specs.Reading.{OnlyReads};
ghost use Rattle.rip_inputs.specs.Opening.{lengths_of};
ghost use Rattle.engine_steps.specs.Steps.{EndsWithCause, IsAnswered, OnlyRefuses, compared};
ghost use Rattle.engine_search.specs.Agreement.{TakesCompared};
ghost use Rattle.cmd_offsets.specs.OffsetsOutcome.{IsOffsetsOutcome, listed};
ghost use Rattle.engine_steps.specs.Outcome.{Leaves};
ghost use Rattle.engine_steps.specs.Comparing.{compared_names};

use column_map::{Candidate, CandidateList};
use engine_search::list_of;
use engine_steps::{Answer, Compared, Stop, compare};
use rip_outside::Shelf;
use rip_report::{Report, Status, text_of};
use std::alloc::Global;

// What is told of all offsets at which a rip agrees with a record.
fn tell(alloc: Global, found: Vec<Candidate>) -> Result<Answer, Stop>
    ensures tells { (files : Files) → Leaves (λ outcome. outcome ≡ listed found.items) files result (Some files) }
    ensures answers { IfOk result (λ answer. IsAnswered answer.status) }
    ensures cause { OnlyRefuses result }
{
    if found.is_empty() {
        return Err(Stop::Refused(Status::NoCandidate));
    }
    let list = CandidateList::of(found);
    let text = text_of(alloc, &Report::Offsets { list })?;
    Ok(Answer {
        status: Status::Done,
        text,
    })
}

/// Lists all offsets at which a rip agrees with a record.
pub fn offsets<S: Shelf>(
    alloc: Global,
    shelf: &mut S,
    input: &str,
    rec: &str,
) -> Result<Answer, Stop>
    ensures leaves { IfSome (S.held shelf.old) (λ files. Leaves (IsOffsetsOutcome input.now rec.now files) files result (S.held shelf.new)) }
    ensures cause { EndsWithCause (S.faults shelf.old) (S.faults shelf.new) result }
    ensures only { OnlyReads S.Shelf shelf.old shelf.new }
    ensures taken { IfSome (S.held shelf.old) (λ files. TakesCompared (compared input.now rec.now files) None 3 (lengths_of (compared_names input.now rec.now files) files) result (S.taken shelf.old) (S.taken shelf.new)) }
{
    let Compared {
        image,
        shape,
        parity,
        seal,
        ..
    } = compare(alloc, shelf, input, rec)?;
    let found = list_of(alloc, shelf, &image, shape, parity, seal)?;
    tell(alloc, found)
}
