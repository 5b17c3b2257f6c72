// The list, read from its file.
ghost use Rattle.std.specs.Prelude.{◌≤◌, length, IfSome, IfOk};
ghost use Rattle.rip_outside.specs.Files.{bytes_at};
ghost use Rattle.rip_outside.specs.Reading.{OnlyReads};
ghost use Rattle.engine_steps.specs.Steps.{Does, OnlyRefuses, ReadsWithCause, Takes};
ghost use Rattle.cmd_batch.specs.BatchOutcome.{list_read, discs_listed};
ghost use Rattle.batch_list.specs.Reading.{list_reading};

use batch_list::{ListFail, ListKind, WordLists, read_list};
use engine_steps::{Found, Stop, read_up_to};
use rip_outside::{Name, Shelf};
use rip_report::Status;
use std::alloc::Global;

// The most bytes of a list that is read.
const MOST_BYTES: usize = 1_048_576;

// The discs of a list, or why it isn't one.
fn discs_of(alloc: Global, bytes: &[u8]) -> Result<WordLists, Stop>
    ensures answer { Does (λ discs. discs) result (list_read (list_reading bytes.now)) }
    ensures few { IfOk result (λ discs. length discs ≤ 1000) }
    ensures cause { OnlyRefuses result }
{
    match read_list(alloc, bytes) {
        Ok(discs) => Ok(discs),
        Err(ListFail::Refused { kind }) => Err(Stop::Refused(Status::ListRefused { kind })),
        Err(ListFail::Oom) => Err(Stop::Oom),
    }
}

/// The discs of the list of this name. A list that has more than 1,048,576 bytes isn't read.
pub fn read_lists<S: Shelf>(alloc: Global, shelf: &mut S, name: &str) -> Result<WordLists, Stop>
    ensures answer { IfSome (S.held shelf.old) (λ files. Does (λ discs. discs) result (discs_listed name.now files)) }
    ensures few { IfOk result (λ discs. length discs ≤ 1000) }
    ensures only { OnlyReads S.Shelf shelf.old shelf.new }
    ensures cause { ReadsWithCause (S.faults shelf.old) (S.faults shelf.new) result }
    ensures taken { IfSome (S.held shelf.old) (λ files. Takes (length (bytes_at name.now files)) result (S.taken shelf.old) (S.taken shelf.new)) }
{
    match read_up_to(alloc, shelf, name, MOST_BYTES)? {
        Found::Bytes { bytes } => discs_of(alloc, &bytes),
        Found::TooLong => Err(Stop::Refused(Status::ListRefused {
            kind: ListKind::TooLong,
        })),
        Found::Absent => Err(Stop::Refused(Status::Missing {
            name: Name::copied(alloc, name)?,
        })),
    }
}
