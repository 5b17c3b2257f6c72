// A response, read from its file.
ghost use Rattle.std.specs.Prelude.{◌≡◌, ◌≤◌, length, vec_len, IfSome, IfOk};
ghost use Rattle.rip_outside.specs.Files.{bytes_at};
ghost use Rattle.rip_outside.specs.Reading.{OnlyReads};
ghost use Rattle.engine_steps.specs.Steps.{Does, Meets, OnlyRefuses, ReadsWithCause, Takes};
ghost use Rattle.cmd_match.specs.MatchOutcome.{AreRead, response_bytes};

use accurip_match::{Response, ResponseFail, read_response};
use engine_steps::{Found, Stop, read_up_to};
use rip_outside::{Name, Shelf};
use rip_report::{ResponseKind, Status};
use std::alloc::Global;

// The most bytes that a response has.
const MOST_BYTES: usize = 65_536;

/// The bytes of the response of this name. One that has more than 65,536 isn't read.
pub fn read_response_file<S: Shelf>(
    alloc: Global,
    shelf: &mut S,
    name: &str,
) -> Result<Vec<u8>, Stop>
    ensures answer { IfSome (S.held shelf.old) (λ files. Does (λ bytes. bytes.items) result (response_bytes name.now files)) }
    ensures few { IfOk result (λ bytes. vec_len bytes ≤ 65536) }
    ensures only { OnlyReads S.Shelf shelf.old shelf.new }
    ensures cause { ReadsWithCause (S.faults shelf.old) (S.faults shelf.new) result }
    ensures taken { IfSome (S.held shelf.old) (λ files. Takes (length (bytes_at name.now files)) result (S.taken shelf.old) (S.taken shelf.new)) }
{
    match read_up_to(alloc, shelf, name, MOST_BYTES)? {
        Found::Bytes { bytes } => Ok(bytes),
        Found::TooLong => Err(Stop::Refused(Status::ResponseRefused {
            kind: ResponseKind::TooLong,
        })),
        Found::Absent => Err(Stop::Refused(Status::NoResponse {
            name: Name::copied(alloc, name)?,
        })),
    }
}

/// The blocks of a response, or why it isn't one.
pub fn blocks_of(alloc: Global, bytes: &[u8]) -> Result<Response, Stop>
    ensures answer { Meets (λ response. response) result (AreRead bytes.now) }
    ensures cause { OnlyRefuses result }
{
    match read_response(alloc, bytes) {
        Ok(response) => Ok(response),
        Err(ResponseFail::Cut { at }) => Err(Stop::Refused(Status::ResponseRefused {
            kind: ResponseKind::Cut { at },
        })),
        Err(ResponseFail::Oom) => Err(Stop::Oom),
    }
}
