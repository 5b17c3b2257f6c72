// Small files, read whole.
ghost use Rattle.std.specs.Prelude.{◌≤◌, length, IfSome, IfOk};
ghost use Rattle.std.specs.FinMap.{get};
ghost use Rattle.rip_outside.specs.Files.{bytes_at};
ghost use Rattle.rip_outside.specs.Reading.{OnlyReads};
ghost use Rattle.engine_steps.specs.Steps.{HasAtMost, IsFound, ReadsOnly, Takes};

use crate::buffers::zero_bytes;
use crate::steps::Stop;
use rip_outside::{Shelf, ShelfCall};
use std::alloc::Global;

/// What stands under a name of which only a small file is read.
#[derive(Debug, Drop)]
pub enum Found {
    /// No file is held under the name.
    Absent,
    /// The file has more bytes than are read.
    TooLong,
    /// The file's bytes.
    Bytes { bytes: Vec<u8> },
}

/// The bytes of the file of this name, if it is held and has at most `most` of them. One that has more isn't read.
pub fn read_up_to<S: Shelf>(
    alloc: Global,
    shelf: &mut S,
    name: &str,
    most: usize,
) -> Result<Found, Stop>
    ensures found { IfSome (S.held shelf.old) (λ files. IfOk result (IsFound most (get files name.now))) }
    ensures few { IfOk result (HasAtMost most) }
    ensures only { OnlyReads S.Shelf shelf.old shelf.new }
    ensures cause { ReadsOnly (S.faults shelf.old) (S.faults shelf.new) result }
    ensures taken { IfSome (S.held shelf.old) (λ files. Takes (length (bytes_at name.now files)) result (S.taken shelf.old) (S.taken shelf.new)) }
{
    let size = match shelf.size(name) {
        Ok(Some(size)) => size,
        Ok(None) => return Ok(Found::Absent),
        Err(_) => {
            return Err(Stop::ReadFault {
                call: ShelfCall::Size,
            });
        }
    };
    if size > most as u64 {
        return Ok(Found::TooLong);
    }
    let mut bytes = zero_bytes(alloc, size as usize)?;
    match shelf.read_at(name, 0, &mut bytes) {
        Ok(()) => Ok(Found::Bytes { bytes }),
        Err(_) => Err(Stop::ReadFault {
            call: ShelfCall::ReadAt,
        }),
    }
}
