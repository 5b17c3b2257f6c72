// What a crash leaves after some calls, for tests.
ghost use Rattle.std.specs.Prelude.{◌≡◌, ◌≤◌, true, length, OnOk, IfOk};
ghost use Rattle.rip_memory.specs.declared.served.Served.TheVariants.{Append, Rename};
ghost use Rattle.rip_memory.specs.Served.{files_by, files_after, unsettled_after};
ghost use Rattle.rip_memory.specs.KeepsCalls.{IsUnsettledBy};
ghost use Rattle.rip_memory.specs.Leftover.{torn_at, all_torn};

use crate::file_table::FileTable;
use crate::served::{Served, unsettle};
use rip_outside::{Name, Oom};
use std::alloc::{AllocError, Global};

// Gives a file another name, as the call did.
fn move_file(files: &mut FileTable, from: &str, to: &str) -> Result<(), AllocError>
    ensures { OnOk result (files.new ≡ files_by (Rename from.now to.now true) files.old) }
{
    if from == to {
        files.remove(from);
        return Ok(());
    }
    if files.bytes(from).is_none() {
        files.make(from)?;
        return files.rename(from, to);
    }
    files.rename(from, to)
}

// Adds bytes to a file, as the call did.
fn add_bytes(files: &mut FileTable, name: &str, bytes: &[u8]) -> Result<(), AllocError>
    ensures { OnOk result (files.new ≡ files_by (Append name.now bytes.now) files.old) }
{
    if files.bytes(name).is_none() {
        files.make(name)?;
        return files.append(name, bytes);
    }
    files.append(name, bytes)
}

// Does a call over again.
fn redo(files: &mut FileTable, call: &Served) -> Result<(), AllocError>
    ensures { OnOk result (files.new ≡ files_by call.now files.old) }
{
    match call {
        Served::Make { name, done } => {
            if *done {
                return files.make(name.as_str());
            }
            Ok(())
        }
        Served::Append { name, bytes } => add_bytes(files, name.as_str(), bytes.as_slice()),
        Served::Sync { .. } => Ok(()),
        Served::Rename { from, to, done } => {
            if *done {
                return move_file(files, from.as_str(), to.as_str());
            }
            Ok(())
        }
    }
}

// The name that a call may make unsettled.
fn entry_of(alloc: Global, call: &Served) -> Result<Name, Oom>
    ensures { IfOk result (λ entry. IsUnsettledBy call.now entry) }
{
    match call {
        Served::Make { name, .. } => Ok(Name::copied(alloc, name.as_str())?),
        Served::Append { name, .. } => Ok(Name::copied(alloc, name.as_str())?),
        Served::Sync { name } => Ok(Name::copied(alloc, name.as_str())?),
        Served::Rename { to, .. } => Ok(Name::copied(alloc, to.as_str())?),
    }
}

/// The files after these calls, and the names that are unsettled then.
pub fn redo_all(
    alloc: Global,
    calls: &[Served],
    unsettled: &mut Vec<Name>,
) -> Result<FileTable, Oom>
    requires { length unsettled.old.items ≡ 0 }
    ensures files { IfOk result (λ files. files ≡ files_after calls.now) }
    ensures names { OnOk result (unsettled.new.items ≡ unsettled_after calls.now) }
{
    let mut files = FileTable::new(alloc);
    for call in calls {
        let entry = entry_of(alloc, call)?;
        if unsettled.reserve(1).is_err() || redo(&mut files, call).is_err() {
            return Err(Oom);
        }
        unsettle(unsettled, call, entry);
    }
    Ok(files)
}

// Leaves the first half of a file, or nothing.
fn tear(alloc: Global, files: &mut FileTable, name: &str, torn: bool) -> Result<(), AllocError>
    ensures { OnOk result (files.new ≡ torn_at torn name.now files.old) }
{
    if torn {
        if let Some(bytes) = files.bytes(name) {
            let half = bytes[..bytes.len() / 2].to_vec(alloc)?;
            files.make(name)?;
            return files.append(name, &half);
        }
    }
    files.remove(name);
    Ok(())
}

/// Leaves of each of these files the first half, or nothing.
pub fn tear_all(alloc: Global, files: &mut FileTable, names: &[Name], torn: bool) -> Result<(), Oom>
    ensures { OnOk result (files.new ≡ all_torn torn names.now files.old) }
{
    for name in names {
        if tear(alloc, files, name.as_str(), torn).is_err() {
            return Err(Oom);
        }
    }
    Ok(())
}
