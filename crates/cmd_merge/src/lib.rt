//! The command `merge`: the good records of one store are added to another.
#![tactic(auto)]

mod copying;
mod fate;
mod planning;
mod telling;
mod writing;

ghost use Rattle.std.specs.Prelude.{◌≡◌, ◌*◌, true, length, map, IfOk, IfSome};
ghost use Rattle.std.specs.Option.{ForSome};
ghost use Rattle.rip_basics.specs.FileNames.{ends_in_slash};
ghost use Rattle.rip_outside.specs.Causes.{NoneFell};
ghost use Rattle.rip_outside.specs.Reading.{OnlyReads};
ghost use Rattle.parity_store.specs.Reading.{most_bytes};
ghost use Rattle.store_upkeep.specs.Entries.{entries_in};
ghost use Rattle.rip_inputs.specs.Opening.{lengths_of};
ghost use Rattle.engine_steps.specs.Crashing.{CrashSafe};
ghost use Rattle.engine_steps.specs.Outcome.{Leaves};
ghost use Rattle.engine_steps.specs.Steps.{ComesToEnd, EndsWithCause, ReadsOnly, Takes};
ghost use Rattle.cmd_merge.specs.MergeOutcome.{IsMergeOutcome, merged_names};
ghost use Rattle.cmd_merge.specs.Planning.{additions, planned};

use cmd_store::open_store;
use engine_steps::{Answer, Stop, zero_bytes};
pub use fate::Fate;
pub use planning::Planned;
use planning::{part_names_of, plan_merge};
use rip_outside::{Folder, Shelf};
use std::alloc::Global;
use store_upkeep::MOST_BYTES;
use telling::tell_plan;
use writing::write_added;

// Plans what becomes of each entry of the store FROM.
fn plan_store<F: Folder>(
    alloc: Global,
    shelf: &mut F,
    from: &str,
    to: &str,
    bytes: &mut [u8],
) -> Result<Vec<Planned>, Stop>
    requires from { ends_in_slash from.now ≡ true }
    requires room { length bytes.old ≡ most_bytes }
    ensures plan { IfSome (F.held shelf.old) (λ files. IfOk result (λ plan. plan.items ≡ map (planned from.now to.now files) (entries_in from.now files))) }
    ensures room { length bytes.new ≡ most_bytes }
    ensures only { OnlyReads F.Shelf shelf.old shelf.new }
    ensures cause { ReadsOnly (F.faults shelf.old) (F.faults shelf.new) result }
    ensures taken { IfSome (F.held shelf.old) (λ files. Takes (lengths_of (merged_names from.now to.now files) files) result (F.taken shelf.old) (F.taken shelf.new)) }
{
    let names = open_store(alloc, shelf, from)?;
    let mut beside = zero_bytes(alloc, MOST_BYTES)?;
    plan_merge(alloc, shelf, from, to, names.as_slice(), bytes, &mut beside)
}

// Leaves what is to be added.
fn keep_additions(plan: &mut Vec<Planned>)
    ensures { plan.new.items ≡ additions plan.old.items }
{
    plan.retain(|entry| entry.fate.is_added());
}

// Tells what is planned, and does it.
#[tactic(auto, using(engine_steps::proofs::CrashingLaws::safe_none))]
fn carry_out<S: Shelf>(
    alloc: Global,
    shelf: &mut S,
    from: &str,
    to: &str,
    mut plan: Vec<Planned>,
    bytes: &mut [u8],
) -> Result<Answer, Stop>
    requires room { length bytes.old ≡ most_bytes }
    requires plan { ForSome (S.held shelf.old) (λ files. plan.items ≡ map (planned from.now to.now files) (entries_in from.now files)) }
    ensures leaves { IfSome (S.held shelf.old) (λ files. Leaves (IsMergeOutcome from.now to.now files) files result (S.held shelf.new)) }
    ensures crashes { CrashSafe (IsMergeOutcome from.now to.now) (ComesToEnd result) (S.crashes shelf.old) (S.crashes shelf.new) }
    ensures cause { EndsWithCause (S.faults shelf.old) (S.faults shelf.new) result }
    ensures later { NoneFell (S.faults shelf.old) (S.faults shelf.new) }
    ensures taken { IfSome (S.held shelf.old) (λ files. Takes (lengths_of (entries_in from.now files) files) result (S.taken shelf.old) (S.taken shelf.new)) }
{
    let text = tell_plan(alloc, &plan)?;
    keep_additions(&mut plan);
    let parts = part_names_of(alloc, &plan)?;
    write_added(alloc, shelf, from, to, &plan, parts.as_slice(), text, bytes)
}

/// Adds the good records of the store FROM to the store TO, where no file has their names, and tells what becomes of each
/// entry of FROM. Nothing is written before the last entry was looked at.
pub fn merge<F: Folder>(alloc: Global, shelf: &mut F, from: &str, to: &str) -> Result<Answer, Stop>
    requires from { ends_in_slash from.now ≡ true }
    ensures leaves { IfSome (F.held shelf.old) (λ files. Leaves (IsMergeOutcome from.now to.now files) files result (F.held shelf.new)) }
    ensures crashes { CrashSafe (IsMergeOutcome from.now to.now) (ComesToEnd result) (F.crashes shelf.old) (F.crashes shelf.new) }
    ensures cause { EndsWithCause (F.faults shelf.old) (F.faults shelf.new) result }
    ensures later { NoneFell (F.faults shelf.old) (F.faults shelf.new) }
    ensures taken { IfSome (F.held shelf.old) (λ files. Takes (3 * lengths_of (merged_names from.now to.now files) files) result (F.taken shelf.old) (F.taken shelf.new)) }
{
    let mut bytes = zero_bytes(alloc, MOST_BYTES)?;
    let plan = plan_store(alloc, shelf, from, to, &mut bytes)?;
    carry_out(alloc, shelf, from, to, plan, &mut bytes)
}
