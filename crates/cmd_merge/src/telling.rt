// What is told of a merge.
ghost use Rattle.std.specs.Prelude.{◌≡◌, ◌++◌, IfOk, OnOk};
ghost use Rattle.rip_report.specs.Stores.{merged_line};
ghost use Rattle.cmd_merge.specs.MergeOutcome.{is_added, is_differing, is_same, is_skipped, line_of_entry};
ghost use Rattle.cmd_merge.specs.Planning.{count_planned, planned_lines};

use crate::fate::Fate;
use crate::planning::Planned;
use rip_outside::{Oom, Text};
use rip_report::StoreLines;
use std::alloc::Global;

// Adds the line of an entry.
fn add_entry(lines: &mut StoreLines, entry: &Planned) -> Result<(), Oom>
    ensures { OnOk result (lines.new ≡ lines.old ++ line_of_entry entry.now.name entry.now.out entry.now.fate) }
{
    match entry.fate {
        Fate::Added => lines.add_fate("added", entry.out.as_str()),
        Fate::Same => lines.add_fate("same", entry.out.as_str()),
        Fate::Differs => lines.add_fate("differs", entry.out.as_str()),
        Fate::Skipped => lines.add_fate("skipped", entry.name.as_str()),
    }
}

// How many entries are added.
fn count_added(plan: &[Planned]) -> u64
    ensures { result ≡ count_planned is_added plan.now }
{
    plan.iter().filter(|entry| entry.fate.is_added()).count() as u64
}

// How many entries TO has already.
fn count_same(plan: &[Planned]) -> u64
    ensures { result ≡ count_planned is_same plan.now }
{
    plan.iter().filter(|entry| entry.fate.is_same()).count() as u64
}

// How many entries TO has otherwise.
fn count_differing(plan: &[Planned]) -> u64
    ensures { result ≡ count_planned is_differing plan.now }
{
    plan.iter()
        .filter(|entry| entry.fate.is_differing())
        .count() as u64
}

// How many entries are skipped.
fn count_skipped(plan: &[Planned]) -> u64
    ensures { result ≡ count_planned is_skipped plan.now }
{
    plan.iter().filter(|entry| entry.fate.is_skipped()).count() as u64
}

/// What is told of what is planned: a line for each entry, and how many there are of each fate.
pub(crate) fn tell_plan(alloc: Global, plan: &[Planned]) -> Result<Text, Oom>
    ensures { IfOk result (λ text. text ≡ planned_lines plan.now ++ merged_line (count_planned is_added plan.now) (count_planned is_same plan.now) (count_planned is_differing plan.now) (count_planned is_skipped plan.now)) }
{
    let mut lines = StoreLines::new(alloc);
    for entry in plan {
        add_entry(&mut lines, entry)?;
    }
    let added = count_added(plan);
    let same = count_same(plan);
    let differs = count_differing(plan);
    let skipped = count_skipped(plan);
    lines.add_merged(added, same, differs, skipped)?;
    Ok(lines.done())
}
