// The records that a merge adds, one after another.
ghost use Rattle.std.specs.Prelude.{◌≡◌, length, IfSome};
ghost use Rattle.std.specs.Option.{ForSome};
ghost use Rattle.rip_outside.specs.Causes.{NoneFell};
ghost use Rattle.rip_inputs.specs.Opening.{lengths_of};
ghost use Rattle.parity_store.specs.Reading.{most_bytes};
ghost use Rattle.store_upkeep.specs.Entries.{entries_in};
ghost use Rattle.engine_steps.specs.Crashing.{CrashSafe};
ghost use Rattle.engine_steps.specs.Outcome.{Leaves, written};
ghost use Rattle.engine_steps.specs.Steps.{ComesToEnd, EndsWithCause, Takes};
ghost use Rattle.cmd_merge.specs.MergeOutcome.{added_among, merge_outputs};
ghost use Rattle.cmd_merge.specs.Planning.{planned_additions, planned_parts};

use crate::copying::copy_entry;
use crate::planning::Planned;
use engine_steps::{Answer, Stop};
use rip_outside::{Name, Shelf, Text};
use rip_report::Status;
use std::alloc::Global;

/// Adds the records that are planned to be added, one after another, and then tells the text.
#[tactic(auto, using(engine_steps::proofs::CrashingLaws::safe_none))]
pub(crate) fn write_added<S: Shelf>(
    alloc: Global,
    shelf: &mut S,
    from: &str,
    to: &str,
    plan: &[Planned],
    parts: &[Name],
    text: Text,
    bytes: &mut [u8],
) -> Result<Answer, Stop>
    requires parts { parts.now ≡ planned_parts plan.now }
    requires room { length bytes.old ≡ most_bytes }
    requires plan { ForSome (S.held shelf.old) (λ files. plan.now ≡ planned_additions from.now to.now files) }
    ensures leaves { IfSome (S.held shelf.old) (λ files. Leaves (λ o. o ≡ written text (merge_outputs from.now to.now files)) files result (S.held shelf.new)) }
    ensures crashes { CrashSafe (λ files o. o ≡ written text (merge_outputs from.now to.now files)) (ComesToEnd result) (S.crashes shelf.old) (S.crashes shelf.new) }
    ensures cause { EndsWithCause (S.faults shelf.old) (S.faults shelf.new) result }
    ensures later { NoneFell (S.faults shelf.old) (S.faults shelf.new) }
    ensures taken { IfSome (S.held shelf.old) (λ files. Takes (lengths_of (added_among from.now to.now files (entries_in from.now files)) files) result (S.taken shelf.old) (S.taken shelf.new)) }
{
    for i in 0..plan.len() {
        let entry = &plan[i];
        let part = parts[i].as_str();
        let name = entry.name.as_str();
        copy_entry(alloc, shelf, from, name, part, entry.out.as_str(), bytes)?;
    }
    Ok(Answer {
        status: Status::Done,
        text,
    })
}
