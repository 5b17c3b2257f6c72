// Whether the names of several files are free.
ghost use Rattle.std.specs.Prelude.{◌≡◌, List, ℕ, All, map, false, IfOk, IfSome, None};
ghost use Rattle.std.specs.List.{list_any};
ghost use Rattle.std.specs.Str.{bytes_eq};
ghost use Rattle.std.specs.FinMap.{get};
ghost use Rattle.rip_outside.specs.Outputs.{part_of};
ghost use Rattle.rip_outside.specs.Reading.{OnlyReads};
ghost use Rattle.engine_steps.specs.Steps.{Does, OnlyRefuses, ReadsWithCause, free};
ghost use Rattle.engine_outputs.specs.Writing.{none_held, none_read};

use engine_steps::{Stop, check_free, is_among, part_name};
use rip_outside::{Name, Names, Shelf};
use rip_report::Status;
use std::alloc::{AllocError, Global};

/// The names under which these outputs are made before they get their own.
pub fn part_names(alloc: Global, outs: &[Name]) -> Result<Names, AllocError>
    ensures { IfOk result (λ parts. parts ≡ map part_of outs.now) }
{
    let mut list = Vec::new(alloc);
    for out in outs {
        list.push(part_name(alloc, out.as_str())?)?;
    }
    Ok(Names::of(list))
}

// Sees that none of these names is held.
fn check_unheld<S: Shelf>(
    alloc: Global,
    shelf: &mut S,
    outs: &[Name],
    parts: &[Name],
) -> Result<(), Stop>
    requires { parts.now ≡ map part_of outs.now }
    ensures answer { IfSome (S.held shelf.old) (λ files. Does (λ _. tt) result (none_held outs.now files)) }
    ensures only { OnlyReads S.Shelf shelf.old shelf.new }
    ensures cause { ReadsWithCause (S.faults shelf.old) (S.faults shelf.new) result }
    ensures taken { S.taken shelf.new ≡ S.taken shelf.old }
{
    for i in 0..outs.len() {
        check_free(alloc, shelf, outs[i].as_str(), parts[i].as_str(), false)?;
    }
    Ok(())
}

// Sees that none of these parts is one of the names that are read.
fn check_unread(alloc: Global, parts: &[Name], read: &[Name]) -> Result<(), Stop>
    ensures answer { (outs : List (List ℕ)) → parts.now ≡ map part_of outs → Does (λ _. tt) result (none_read outs read.now) }
    ensures unread { IfOk result (λ _. All (λ part. list_any (bytes_eq part) read.now ≡ false) parts.now) }
    ensures cause { OnlyRefuses result }
{
    for part in parts {
        if is_among(part.as_str(), read) {
            let name = Name::copied(alloc, part.as_str())?;
            return Err(Stop::Refused(Status::OutExists { name }));
        }
    }
    Ok(())
}

/// Sees that the outputs' names are free: none is held, and no part of them is a file that is read. The first that isn't
/// is named, those that are held before the parts.
pub fn check_outputs<S: Shelf>(
    alloc: Global,
    shelf: &mut S,
    outs: &[Name],
    parts: &[Name],
    read: &[Name],
) -> Result<(), Stop>
    requires { parts.now ≡ map part_of outs.now }
    ensures answer { IfSome (S.held shelf.old) (λ files. Does (λ _. tt) result (free outs.now read.now files)) }
    ensures unread { IfOk result (λ _. All (λ part. list_any (bytes_eq part) read.now ≡ false) parts.now) }
    ensures unheld { IfSome (S.held shelf.old) (λ files. IfOk result (λ _. All (λ out. get files out ≡ None) outs.now)) }
    ensures only { OnlyReads S.Shelf shelf.old shelf.new }
    ensures cause { ReadsWithCause (S.faults shelf.old) (S.faults shelf.new) result }
    ensures taken { S.taken shelf.new ≡ S.taken shelf.old }
{
    check_unheld(alloc, shelf, outs, parts)?;
    check_unread(alloc, parts, read)
}
