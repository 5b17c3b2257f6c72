// What becomes of each entry of a store, before anything is written.
ghost use Rattle.std.specs.Prelude.{◌≡◌, ◌+◌, ◌≤◌, ℕ, List, true, All, length, map, IfSome, IfOk};
ghost use Rattle.std.specs.FinMap.{get};
ghost use Rattle.rip_outside.specs.Files.{bytes_at};
ghost use Rattle.rip_outside.specs.Listing.{stands_in};
ghost use Rattle.rip_outside.specs.Reading.{OnlyReads};
ghost use Rattle.rip_inputs.specs.Opening.{lengths_of};
ghost use Rattle.parity_store.specs.Reading.{most_bytes};
ghost use Rattle.engine_steps.specs.Steps.{ReadsOnly, Takes};
ghost use Rattle.cmd_merge.specs.MergeOutcome.{fate_beside, fate_of, target};
ghost use Rattle.cmd_merge.specs.Planning.{planned, planned_parts};

use crate::fate::Fate;
use cmd_store::look_stop;
use engine_steps::{Stop, part_name};
use rip_outside::{Name, Names, Shelf, ShelfCall};
use std::alloc::{AllocError, Global};
use store_upkeep::copy_good;

/// An entry of the store FROM, its name in the store TO, and what becomes of it.
#[derive(Drop)]
pub struct Planned {
    pub name: Name,
    pub out: Name,
    pub fate: Fate,
}

// The name of an entry of FROM, with TO in FROM's place.
fn target_name(alloc: Global, from: &str, to: &str, name: &str) -> Result<Name, AllocError>
    requires { stands_in from.now name.now ≡ true }
    ensures { IfOk result (λ out. out ≡ target from.now to.now name.now) }
{
    let Some(rest) = name.strip_prefix(from) else {
        unreachable!()
    };
    Ok(Name::of(format!(in alloc; "{to}{rest}")?))
}

// What becomes of a good entry with these bytes, whose name in TO is `out`. TO's file is read through `beside`.
fn fate_beside<S: Shelf>(
    shelf: &mut S,
    out: &str,
    bytes: &[u8],
    beside: &mut [u8],
) -> Result<Fate, Stop>
    requires room { length bytes.now ≤ length beside.old }
    ensures fate { IfSome (S.held shelf.old) (λ files. IfOk result (λ fate. fate ≡ fate_beside bytes.now (get files out.now))) }
    ensures room { length beside.new ≡ length beside.old }
    ensures only { OnlyReads S.Shelf shelf.old shelf.new }
    ensures cause { ReadsOnly (S.faults shelf.old) (S.faults shelf.new) result }
    ensures taken { IfSome (S.held shelf.old) (λ files. Takes (length (bytes_at out.now files)) result (S.taken shelf.old) (S.taken shelf.new)) }
{
    let size = match shelf.size(out) {
        Ok(Some(size)) => size,
        Ok(None) => return Ok(Fate::Added),
        Err(_) => {
            return Err(Stop::ReadFault {
                call: ShelfCall::Size,
            });
        }
    };
    if size != bytes.len() as u64 {
        return Ok(Fate::Differs);
    }
    let held = &mut beside[..bytes.len()];
    let Ok(()) = shelf.read_at(out, 0, held) else {
        return Err(Stop::ReadFault {
            call: ShelfCall::ReadAt,
        });
    };
    if &*held == bytes {
        Ok(Fate::Same)
    } else {
        Ok(Fate::Differs)
    }
}

// What becomes of an entry of FROM whose name in TO is `out`.
fn find_fate<S: Shelf>(
    alloc: Global,
    shelf: &mut S,
    from: &str,
    name: &str,
    out: &str,
    bytes: &mut [u8],
    beside: &mut [u8],
) -> Result<Fate, Stop>
    requires bytes { length bytes.old ≡ most_bytes }
    requires beside { length beside.old ≡ most_bytes }
    ensures fate { IfSome (S.held shelf.old) (λ files. IfOk result (λ fate. (to : List ℕ) → out.now ≡ target from.now to name.now → fate ≡ fate_of from.now to files name.now)) }
    ensures bytes { length bytes.new ≡ most_bytes }
    ensures beside { length beside.new ≡ most_bytes }
    ensures only { OnlyReads S.Shelf shelf.old shelf.new }
    ensures cause { ReadsOnly (S.faults shelf.old) (S.faults shelf.new) result }
    ensures taken { IfSome (S.held shelf.old) (λ files. Takes (length (bytes_at name.now files) + length (bytes_at out.now files)) result (S.taken shelf.old) (S.taken shelf.new)) }
{
    match copy_good(alloc, shelf, from, name, bytes) {
        Ok(Some(size)) => fate_beside(shelf, out, &bytes[..size], beside),
        Ok(None) => Ok(Fate::Skipped),
        Err(fail) => Err(look_stop(fail)),
    }
}

// Plans what becomes of an entry of FROM.
fn plan_entry<S: Shelf>(
    alloc: Global,
    shelf: &mut S,
    from: &str,
    to: &str,
    name: &str,
    bytes: &mut [u8],
    beside: &mut [u8],
) -> Result<Planned, Stop>
    requires inside { stands_in from.now name.now ≡ true }
    requires bytes { length bytes.old ≡ most_bytes }
    requires beside { length beside.old ≡ most_bytes }
    ensures plan { IfSome (S.held shelf.old) (λ files. IfOk result (λ entry. entry ≡ planned from.now to.now files name.now)) }
    ensures bytes { length bytes.new ≡ most_bytes }
    ensures beside { length beside.new ≡ most_bytes }
    ensures only { OnlyReads S.Shelf shelf.old shelf.new }
    ensures cause { ReadsOnly (S.faults shelf.old) (S.faults shelf.new) result }
    ensures taken { IfSome (S.held shelf.old) (λ files. Takes (length (bytes_at name.now files) + length (bytes_at (target from.now to.now name.now) files)) result (S.taken shelf.old) (S.taken shelf.new)) }
{
    let out = target_name(alloc, from, to, name)?;
    let fate = find_fate(alloc, shelf, from, name, out.as_str(), bytes, beside)?;
    let name = Name::copied(alloc, name)?;
    Ok(Planned { name, out, fate })
}

/// Plans what becomes of each of these entries of FROM. Each is read once, and so is TO's file of its name.
pub(crate) fn plan_merge<S: Shelf>(
    alloc: Global,
    shelf: &mut S,
    from: &str,
    to: &str,
    names: &[Name],
    bytes: &mut [u8],
    beside: &mut [u8],
) -> Result<Vec<Planned>, Stop>
    requires inside { All (λ name. stands_in from.now name ≡ true) names.now }
    requires bytes { length bytes.old ≡ most_bytes }
    requires beside { length beside.old ≡ most_bytes }
    ensures plan { IfSome (S.held shelf.old) (λ files. IfOk result (λ plan. plan.items ≡ map (planned from.now to.now files) names.now)) }
    ensures bytes { length bytes.new ≡ most_bytes }
    ensures only { OnlyReads S.Shelf shelf.old shelf.new }
    ensures cause { ReadsOnly (S.faults shelf.old) (S.faults shelf.new) result }
    ensures taken { IfSome (S.held shelf.old) (λ files. Takes (lengths_of names.now files + lengths_of (map (target from.now to.now) names.now) files) result (S.taken shelf.old) (S.taken shelf.new)) }
{
    let mut plan = Vec::new(alloc);
    for name in names {
        let entry = plan_entry(alloc, shelf, from, to, name.as_str(), bytes, beside)?;
        let Ok(()) = plan.push(entry) else {
            return Err(Stop::Oom);
        };
    }
    Ok(plan)
}

/// The names under which what is planned is made before it gets its own.
pub(crate) fn part_names_of(alloc: Global, plan: &[Planned]) -> Result<Names, AllocError>
    ensures { IfOk result (λ parts. parts ≡ planned_parts plan.now) }
{
    let mut list = Vec::new(alloc);
    for entry in plan {
        list.push(part_name(alloc, entry.out.as_str())?)?;
    }
    Ok(Names::of(list))
}
