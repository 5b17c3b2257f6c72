//! The command `batch`: the commands of a list, one after another, and the part that is told of each.
#![tactic(auto)]

mod discs;
mod lists;

ghost use Rattle.std.specs.Prelude.{◌≡◌, ℕ, List};
ghost use Rattle.rip_outside.specs.Files.{Files};
ghost use Rattle.engine_steps.specs.Outcome.{Outcome};
ghost use Rattle.rip_commands.specs.Look.{Look};
ghost use Rattle.rip_commands.specs.Seen.{seen};
ghost use Rattle.cmd_batch.specs.Apart.{DiscsAreIndependent};
ghost use Rattle.cmd_batch.specs.BatchOutcome.{IsBatchOutcome};
ghost use Rattle.cmd_batch.specs.Batch.{BatchDecides, BatchRan, BatchSurvives, BatchTakes, FaultsAreCounted, GoesToTheEnd, OwnFaults};

use crate::discs::run_discs;
use crate::lists::read_lists;
use rip_commands::{fault_lines, print, told_of};
use rip_outside::{Folder, Sink};
use rip_report::Status;
use std::alloc::Global;

// Reads the list, and runs its discs or tells why there are none.
fn run_list<F: Folder, K: Sink>(alloc: Global, list: &str, files: &mut F, out: &mut K) -> Status
    ensures { BatchRan list.now (seen F.Shelf K.Sink files.old out.old) (seen F.Shelf K.Sink files.new out.new) (F.crashes files.old) (F.crashes files.new) result }
{
    let Ok(lines) = fault_lines(alloc) else {
        return Status::WantOfMemory;
    };
    match read_lists(alloc, files, list) {
        Ok(discs) => run_discs(alloc, discs.as_slice(), files, out),
        Err(stop) => print(out, told_of(alloc, Err(stop), lines)),
    }
}

/// Runs the commands of the list LIST in order, each on what the one before left, and puts the part of each in one call as it ends:
/// its number, that of its status, and its text. The last line counts the discs and those that weren't done. A disc's refusal or
/// fault doesn't end the batch. A put that fails ends it, and so does want of memory.
pub fn batch<F: Folder, K: Sink>(alloc: Global, list: &str, files: &mut F, out: &mut K) -> Status
    ensures runs { BatchRan list.now (seen F.Shelf K.Sink files.old out.old) (seen F.Shelf K.Sink files.new out.new) (F.crashes files.old) (F.crashes files.new) result }
    ensures outcome { BatchDecides list.now (seen F.Shelf K.Sink files.old out.old) (seen F.Shelf K.Sink files.new out.new) result }
    ensures own_faults { OwnFaults (seen F.Shelf K.Sink files.old out.old) (seen F.Shelf K.Sink files.new out.new) result }
    ensures to_the_end { GoesToTheEnd list.now (seen F.Shelf K.Sink files.old out.old) (seen F.Shelf K.Sink files.new out.new) result }
    ensures bytes_taken { BatchTakes list.now (seen F.Shelf K.Sink files.old out.old) (seen F.Shelf K.Sink files.new out.new) }
    ensures survives { BatchSurvives list.now (seen F.Shelf K.Sink files.old out.old) (seen F.Shelf K.Sink files.new out.new) (F.crashes files.old) (F.crashes files.new) result }
{
    run_list(alloc, list, files, out)
}

/// The laws of a batch: the list, by its name, and the files have at most one outcome; a disc that has nothing to do with what the discs
/// before it write comes to what it comes to alone; and no more discs of a run end in a fault of the shelf than its counts rise by.
pub fn laws()
    ensures one_outcome { (list : List ℕ) (files : Files) (a b : Outcome) → IsBatchOutcome list files a → IsBatchOutcome list files b → a ≡ b }
    ensures independent { (discs : List (List (List ℕ))) (files : Files) (outcomes : List Outcome) → DiscsAreIndependent discs files outcomes }
    ensures faults_counted { (discs : List (List (List ℕ))) (before after : Look) → FaultsAreCounted discs before after }
{}
