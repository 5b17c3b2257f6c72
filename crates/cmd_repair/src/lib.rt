//! The command `repair`: a rip is written anew, mended by a record.
#![tactic(auto)]

ghost use Rattle.std.specs.Prelude.{◌≡◌, ◌≢◌, ◌*◌, ◌<◌, ◌∷◌, [], All, IfSome, IfOk, None};
ghost use Rattle.std.specs.Option.{ForSome};
ghost use Rattle.std.specs.List.Sorted.{IsStrictlyIncreasing};
ghost use Rattle.std.specs.FinMap.{get};
ghost use Rattle.rip_outside.specs.Outputs.{part_of};
ghost use Rattle.rip_outside.specs.Causes.{NoneFell};
ghost use Rattle.column_map.specs.Columns.{IsOffset};
ghost use Rattle.column_map.specs.Mending.{places};
ghost use Rattle.wav_frames.specs.Wav.{wav_bytes};
ghost use Rattle.image_mender.specs.declared.image.Part.{Part};
ghost use Rattle.image_mender.specs.Joined.{AreInFiles, joined_words, word_count};
ghost use Rattle.image_mender.specs.Patched.{patched};
ghost use Rattle.engine_steps.specs.Steps.{ComesToEnd, EndsWithCause, StopsWithCause, Takes, compared};
ghost use Rattle.engine_search.specs.Agreement.{TakesCompared};
ghost use Rattle.engine_search.specs.Picking.{PicksCompared};
ghost use Rattle.rip_report.specs.Texts.{written_text};
ghost use Rattle.rip_inputs.specs.Opening.{lengths_of};
ghost use Rattle.engine_steps.specs.Crashing.{CrashSafe};
ghost use Rattle.cmd_repair.specs.RepairOutcome.{IsRepairOutcome, answer_told};
ghost use Rattle.engine_steps.specs.Outcome.{Leaves, output, written};
ghost use Rattle.engine_steps.specs.Comparing.{compared_names};

use column_map::Candidate;
use engine_search::{Picked, mend_of};
use engine_steps::{
    Answer, Compared, PIECE, Stop, check_free, compare, is_read, mend_stop, part_name, zero_bytes,
    zero_words,
};
use image_mender::{Image, write_mended};
use rip_outside::{Name, Shelf, Text};
use rip_report::{Report, Status, text_of};
use std::alloc::Global;

// The words of a mended file that are read and written at a time: two pieces, since each costs a call of either kind.
const WRITTEN_PIECE: usize = 2 * PIECE;

// Writes the rip's words, mended, under the output's name. All memory is taken before.
#[tactic(auto, using(engine_steps::proofs::CrashingLaws::safe_none))]
fn write_repair<S: Shelf>(
    alloc: Global,
    shelf: &mut S,
    image: &Image,
    picked: &Picked,
    part: &str,
    to: &str,
) -> Result<(Candidate, Text), Stop>
    requires part { part.now ≡ part_of to.now }
    requires free { ForSome (S.held shelf.old) (λ files. get files to.now ≡ None) }
    requires inside { ForSome (S.held shelf.old) (AreInFiles image.now) }
    requires apart { All (λ (p : Part). p.name ≢ part.now) image.now }
    requires rising { IsStrictlyIncreasing (places picked.now.fixes.items) }
    requires lie { All (λ place. place < word_count image.now) (places picked.now.fixes.items) }
    ensures leaves { IfSome (S.held shelf.old) (λ files. Leaves (λ o. o ≡ written (written_text picked.now.at to.now) (output to.now (wav_bytes (patched picked.now.fixes.items (joined_words image.now files))) ∷ [])) files (answer_told result) (S.held shelf.new)) }
    ensures crashes { CrashSafe (λ files o. o ≡ written (written_text picked.now.at to.now) (output to.now (wav_bytes (patched picked.now.fixes.items (joined_words image.now files))) ∷ [])) (ComesToEnd result) (S.crashes shelf.old) (S.crashes shelf.new) }
    ensures at { IfOk result (λ told. told.0 ≡ picked.now.at) }
    ensures cause { StopsWithCause (S.faults shelf.old) (S.faults shelf.new) result }
    ensures later { NoneFell (S.faults shelf.old) (S.faults shelf.new) }
    ensures taken { Takes (2 * word_count image.now) result (S.taken shelf.old) (S.taken shelf.new) }
{
    let written = Report::Written {
        at: picked.at,
        name: Name::copied(alloc, to)?,
    };
    let text = text_of(alloc, &written)?;
    let mut words = zero_words(alloc, WRITTEN_PIECE)?;
    let mut bytes = zero_bytes(alloc, 2 * WRITTEN_PIECE)?;
    match write_mended(
        shelf,
        image,
        &picked.fixes,
        part,
        to,
        &mut words,
        &mut bytes,
    ) {
        Ok(()) => Ok((picked.at, text)),
        Err(fail) => Err(mend_stop(fail)),
    }
}

/// Writes a rip, mended by a record, under the output's name: at the given offset or at the only one. Tells the offset,
/// and the text of `repair`.
#[tactic(auto, using(engine_steps::proofs::CrashingLaws::safe_rests))]
pub fn mend<S: Shelf>(
    alloc: Global,
    shelf: &mut S,
    input: &str,
    rec: &str,
    to: &str,
    offset: Option<i32>,
) -> Result<(Candidate, Text), Stop>
    requires { IfSome offset IsOffset }
    ensures leaves { IfSome (S.held shelf.old) (λ files. Leaves (IsRepairOutcome input.now rec.now to.now offset files) files (answer_told result) (S.held shelf.new)) }
    ensures crashes { CrashSafe (IsRepairOutcome input.now rec.now to.now offset) (ComesToEnd result) (S.crashes shelf.old) (S.crashes shelf.new) }
    ensures picks { IfSome (S.held shelf.old) (λ files. IfOk result (λ told. PicksCompared (compared input.now rec.now files) offset told.0)) }
    ensures cause { StopsWithCause (S.faults shelf.old) (S.faults shelf.new) result }
    ensures later { NoneFell (S.faults shelf.old) (S.faults shelf.new) }
    ensures taken { IfSome (S.held shelf.old) (λ files. TakesCompared (compared input.now rec.now files) offset 3 (lengths_of (compared_names input.now rec.now files) files) result (S.taken shelf.old) (S.taken shelf.new)) }
{
    let Compared {
        image,
        shape,
        parity,
        seal,
        names,
        rec: name,
        ..
    } = compare(alloc, shelf, input, rec)?;
    let part = part_name(alloc, to)?;
    let is_read = is_read(part.as_str(), names.as_slice(), name.as_str());
    check_free(alloc, shelf, to, part.as_str(), is_read)?;
    let picked = mend_of(alloc, shelf, &image, shape, parity, seal, offset)?;
    write_repair(alloc, shelf, &image, &picked, part.as_str(), to)
}

/// Writes a rip, mended by a record, under the output's name: at the given offset or at the only one.
pub fn repair<S: Shelf>(
    alloc: Global,
    shelf: &mut S,
    input: &str,
    rec: &str,
    to: &str,
    offset: Option<i32>,
) -> Result<Answer, Stop>
    requires { IfSome offset IsOffset }
    ensures leaves { IfSome (S.held shelf.old) (λ files. Leaves (IsRepairOutcome input.now rec.now to.now offset files) files result (S.held shelf.new)) }
    ensures crashes { CrashSafe (IsRepairOutcome input.now rec.now to.now offset) (ComesToEnd result) (S.crashes shelf.old) (S.crashes shelf.new) }
    ensures cause { EndsWithCause (S.faults shelf.old) (S.faults shelf.new) result }
    ensures later { NoneFell (S.faults shelf.old) (S.faults shelf.new) }
    ensures taken { IfSome (S.held shelf.old) (λ files. TakesCompared (compared input.now rec.now files) offset 3 (lengths_of (compared_names input.now rec.now files) files) result (S.taken shelf.old) (S.taken shelf.new)) }
{
    match mend(alloc, shelf, input, rec, to, offset) {
        Ok((_, text)) => Ok(Answer {
            status: Status::Done,
            text,
        }),
        Err(stop) => Err(stop),
    }
}
