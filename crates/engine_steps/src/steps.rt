// The steps that commands share: each refuses with a status, or finds what the next one goes on with.
ghost use Rattle.std.specs.Prelude.{◌≡◌, ◌*◌, ◌++◌, ◌∷◌, [], All, Contains, length, false, IfSome, IfOk};
ghost use Rattle.std.specs.List.{list_any};
ghost use Rattle.std.specs.Str.{bytes_eq};
ghost use Rattle.std.specs.Option.{ForSome};
ghost use Rattle.std.specs.FinMap.{get};
ghost use Rattle.rip_outside.specs.Files.{bytes_at};
ghost use Rattle.rip_outside.specs.Outputs.{part_of};
ghost use Rattle.rip_outside.specs.Causes.{NoneFell};
ghost use Rattle.rip_outside.specs.Reading.{OnlyReads};
ghost use Rattle.column_map.specs.Columns.{IsSectorCount};
ghost use Rattle.disc_toc.specs.Toc.{toc_of};
ghost use Rattle.image_mender.specs.Joined.{AreInFiles, word_count};
ghost use Rattle.image_mender.specs.declared.image.Part.{Part};
ghost use Rattle.parity_store.specs.Reading.{stored_of};
ghost use Rattle.rip_inputs.specs.Opening.{lengths_of, names_read};
ghost use Rattle.rip_inputs.specs.Telling.{opened_of};
ghost use Rattle.engine_steps.specs.Steps.{opened, measured, mend_stop, recorded, rip_stop, same_layout, freed, stop_of, ComesToEnd, Does, OnlyRefuses, EndsWithCause, ReadsWithCause, Takes};
ghost use Rattle.engine_steps.specs.Outcome.{Leaves, output, written};
ghost use Rattle.engine_steps.specs.Crashing.{CrashSafe};

use column_map::Shape;
use disc_toc::{Layout, LayoutKind, first_difference};
use image_mender::MendFail;
use parity_store::{FindFail, PutFail, Record, find, put};
use rip_inputs::{Rip, RipFail, open_rip};
use rip_outside::{Name, Oom, Shelf, ShelfCall, Text};
use rip_report::Status;
use std::alloc::{AllocError, Global};

/// Why a command stopped before its report.
#[derive(Debug, Drop)]
pub enum Stop {
    /// A step refused.
    Refused(Status),
    /// A call that reads failed.
    ReadFault { call: ShelfCall },
    /// A call that writes failed.
    WriteFault { call: ShelfCall },
    /// Memory was wanting.
    Oom,
}

/// What a command came to: a status, and the text that is printed of it.
#[derive(Debug, Drop)]
pub struct Answer {
    pub status: Status,
    pub text: Text,
}

impl From<Oom> for Stop {
    ghost use Rattle.std.specs.Prelude.{◌≡◌};
    ghost use Rattle.engine_steps.specs.declared.steps.Stop.TheVariants.{Oom as WantStop};

    ghost from_gives = { λ _ stop. stop ≡ WantStop };

    fn from(_: Oom) -> Stop {
        Stop::Oom
    }
}

impl From<AllocError> for Stop {
    ghost use Rattle.std.specs.Prelude.{◌≡◌};
    ghost use Rattle.engine_steps.specs.declared.steps.Stop.TheVariants.{Oom as WantStop};

    ghost from_gives = { λ _ stop. stop ≡ WantStop };

    fn from(_: AllocError) -> Stop {
        Stop::Oom
    }
}

/// The name under which an output is made before it gets its own: with `.part` at its end.
pub fn part_name(alloc: Global, out: &str) -> Result<Name, AllocError>
    ensures { IfOk result (λ part. part ≡ part_of out.now) }
{
    Ok(Name::of(format!(in alloc; "{out}.part")?))
}

fn rip_stop(fail: RipFail) -> Stop
    ensures { result ≡ rip_stop fail }
{
    match fail {
        RipFail::Missing { name } => Stop::Refused(Status::Missing { name }),
        RipFail::CueRefused { line, kind } => Stop::Refused(Status::CueRefused { line, kind }),
        RipFail::WavRefused { name, kind, at } => {
            Stop::Refused(Status::WavRefused { name, kind, at })
        }
        RipFail::LayoutRefused { kind } => Stop::Refused(Status::LayoutRefused { kind }),
        RipFail::ReadFault { call } => Stop::ReadFault { call },
        RipFail::Oom => Stop::Oom,
    }
}

/// Opens the rip: its layout, its image and the names that were read, or why it is refused.
pub fn open_input<S: Shelf>(alloc: Global, shelf: &mut S, input: &str) -> Result<Rip, Stop>
    ensures answer { IfSome (S.held shelf.old) (λ files. Does (λ rip. opened_of rip files) result (opened input.now files)) }
    ensures inside { IfSome (S.held shelf.old) (λ files. IfOk result (λ rip. AreInFiles rip.image files)) }
    ensures count { IfOk result (λ rip. word_count rip.image ≡ 1176 * rip.layout.sectors) }
    ensures named { IfOk result (λ rip. All (λ (part : Part). Contains rip.names part.name) rip.image) }
    ensures only { OnlyReads S.Shelf shelf.old shelf.new }
    ensures cause { ReadsWithCause (S.faults shelf.old) (S.faults shelf.new) result }
    ensures taken { IfSome (S.held shelf.old) (λ files. Takes (lengths_of (names_read input.now files) files) result (S.taken shelf.old) (S.taken shelf.new)) }
{
    match open_rip(alloc, shelf, input) {
        Ok(rip) => Ok(rip),
        Err(fail) => Err(rip_stop(fail)),
    }
}

/// Opens the rip, which has to be long enough for parity, and tells the shape of its image.
pub fn open_measured<S: Shelf>(
    alloc: Global,
    shelf: &mut S,
    input: &str,
) -> Result<(Rip, Shape), Stop>
    ensures answer { IfSome (S.held shelf.old) (λ files. Does (λ found. opened_of found.0 files) result (measured input.now files)) }
    ensures inside { IfSome (S.held shelf.old) (λ files. IfOk result (λ found. AreInFiles found.0.image files)) }
    ensures shape { IfOk result (λ found. found.1 ≡ found.0.layout.sectors) }
    ensures range { IfOk result (λ found. IsSectorCount found.1) }
    ensures count { IfOk result (λ found. word_count found.0.image ≡ 1176 * found.1) }
    ensures named { IfOk result (λ found. All (λ (part : Part). Contains found.0.names part.name) found.0.image) }
    ensures only { OnlyReads S.Shelf shelf.old shelf.new }
    ensures cause { ReadsWithCause (S.faults shelf.old) (S.faults shelf.new) result }
    ensures taken { IfSome (S.held shelf.old) (λ files. Takes (lengths_of (names_read input.now files) files) result (S.taken shelf.old) (S.taken shelf.new)) }
{
    let rip = open_input(alloc, shelf, input)?;
    let sectors = rip.layout.sectors;
    let Some(shape) = Shape::of(sectors) else {
        return Err(Stop::Refused(Status::LayoutRefused {
            kind: LayoutKind::TooShort { sectors },
        }));
    };
    Ok((rip, shape))
}

/// Finds the record under a name, or why there is none.
pub fn find_record<S: Shelf>(alloc: Global, shelf: &mut S, name: &str) -> Result<Record, Stop>
    ensures answer { IfSome (S.held shelf.old) (λ files. Does stored_of result (recorded name.now files)) }
    ensures only { OnlyReads S.Shelf shelf.old shelf.new }
    ensures cause { ReadsWithCause (S.faults shelf.old) (S.faults shelf.new) result }
    ensures taken { IfSome (S.held shelf.old) (λ files. Takes (length (bytes_at name.now files)) result (S.taken shelf.old) (S.taken shelf.new)) }
{
    match find(alloc, shelf, name) {
        Ok(rec) => Ok(rec),
        Err(FindFail::NoRecord) => {
            let name = Name::copied(alloc, name)?;
            Err(Stop::Refused(Status::NoRecord { name }))
        }
        Err(FindFail::Refused { kind }) => Err(Stop::Refused(Status::RecordRefused { kind })),
        Err(FindFail::ReadFault { call }) => Err(Stop::ReadFault { call }),
        Err(FindFail::Oom) => Err(Stop::Oom),
    }
}

/// Sees that the rip's layout is the record's.
pub fn check_layout(rip: &Layout, kept: &Layout) -> Result<(), Stop>
    ensures answer { Does (λ _. tt) result (same_layout (toc_of rip.now) (toc_of kept.now)) }
    ensures cause { OnlyRefuses result }
{
    match first_difference(rip, kept) {
        Some(differs) => Err(Stop::Refused(Status::OtherLayout { differs })),
        None => Ok(()),
    }
}

/// Whether an output's part is one of the names that are read.
pub fn is_among(part: &str, names: &[Name]) -> bool
    ensures { result ≡ list_any (bytes_eq part.now) names.now }
{
    for name in names {
        if part == name.as_str() {
            return true;
        }
    }
    false
}

/// Whether an output's part is the record or one of the rip's names, which are read.
pub fn is_read(part: &str, names: &[Name], rec: &str) -> bool
    ensures { result ≡ list_any (bytes_eq part.now) (names.now ++ rec.now ∷ []) }
{
    if is_among(part, names) {
        return true;
    }
    part == rec
}

/// Sees that the output's name is free: it isn't held, and its part isn't a file that is read.
pub fn check_free<S: Shelf>(
    alloc: Global,
    shelf: &mut S,
    out: &str,
    part: &str,
    is_read: bool,
) -> Result<(), Stop>
    requires { part.now ≡ part_of out.now }
    ensures answer { IfSome (S.held shelf.old) (λ files. Does (λ _. tt) result (freed is_read out.now files)) }
    ensures unread { IfOk result (λ _. is_read ≡ false) }
    ensures only { OnlyReads S.Shelf shelf.old shelf.new }
    ensures cause { ReadsWithCause (S.faults shelf.old) (S.faults shelf.new) result }
    ensures taken { S.taken shelf.new ≡ S.taken shelf.old }
{
    let Ok(size) = shelf.size(out) else {
        return Err(Stop::ReadFault {
            call: ShelfCall::Size,
        });
    };
    if size.is_some() {
        let name = Name::copied(alloc, out)?;
        return Err(Stop::Refused(Status::OutExists { name }));
    }
    if is_read {
        let name = Name::copied(alloc, part)?;
        return Err(Stop::Refused(Status::OutExists { name }));
    }
    Ok(())
}

/// A put's failure, as a stop of the command.
pub fn put_stop(fail: PutFail) -> Stop
    ensures { result ≡ stop_of fail }
{
    match fail {
        PutFail::WriteFault { call } => Stop::WriteFault { call },
        PutFail::Oom => Stop::Oom,
    }
}

/// A mending's failure, as a stop of the command.
pub fn mend_stop(fail: MendFail) -> Stop
    ensures { result ≡ mend_stop fail }
{
    match fail {
        MendFail::ReadFault { call } => Stop::ReadFault { call },
        MendFail::WriteFault { call } => Stop::WriteFault { call },
        MendFail::Oom => Stop::Oom,
    }
}

/// The last step of a command that stores bytes: they stand under the output's name, and the text is to be printed.
pub fn write_out<S: Shelf>(
    shelf: &mut S,
    bytes: &[u8],
    part: &str,
    out: &str,
    text: Text,
) -> Result<Answer, Stop>
    requires part { part.now ≡ part_of out.now }
    requires free { ForSome (S.held shelf.old) (λ files. get files out.now ≡ None) }
    ensures leaves { IfSome (S.held shelf.old) (λ files. Leaves (λ o. o ≡ written text (output out.now bytes.now ∷ [])) files result (S.held shelf.new)) }
    ensures crashes { CrashSafe (λ _ o. o ≡ written text (output out.now bytes.now ∷ [])) (ComesToEnd result) (S.crashes shelf.old) (S.crashes shelf.new) }
    ensures cause { EndsWithCause (S.faults shelf.old) (S.faults shelf.new) result }
    ensures later { NoneFell (S.faults shelf.old) (S.faults shelf.new) }
    ensures taken { S.taken shelf.new ≡ S.taken shelf.old }
{
    match put(shelf, bytes, part, out) {
        Ok(()) => Ok(Answer {
            status: Status::Done,
            text,
        }),
        Err(fail) => Err(put_stop(fail)),
    }
}
