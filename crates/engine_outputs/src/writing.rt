// Images and a sheet, written one after another.
ghost use Rattle.std.specs.Prelude.{◌≡◌, ◌≢◌, ◌∷◌, ◌+◌, ◌*◌, ◌%◌, ◌<◌, [], List, ℕ, All, AllPairs, Contains, length, map, sum_by, IfErr, IfSome, IsOk, None, OnOk};
ghost use Rattle.std.specs.Option.{ForSome};
ghost use Rattle.std.specs.FinMap.{get};
ghost use Rattle.rip_outside.specs.Files.{Becomes, LeavesName, WhereTold, after_put};
ghost use Rattle.rip_outside.specs.Crashes.{PutsWhole, StoresWhole, WhereForetold};
ghost use Rattle.rip_outside.specs.Causes.{NoneFell};
ghost use Rattle.rip_outside.specs.Outputs.{part_of};
ghost use Rattle.rip_outside.specs.declared.fault.ShelfCall.{ShelfCall};
ghost use Rattle.wav_frames.specs.Wav.{wav_bytes};
ghost use Rattle.image_mender.specs.declared.image.Part.{Part};
ghost use Rattle.image_mender.specs.Joined.{AreInFiles, joined_words, word_count};
ghost use Rattle.engine_steps.specs.declared.steps.Stop.{Stop};
ghost use Rattle.engine_steps.specs.Steps.{ComesToEnd, EndsWithCause, StopsWithCause, Takes};
ghost use Rattle.engine_steps.specs.Outcome.{Leaves, written};
ghost use Rattle.engine_steps.specs.Crashing.{CrashSafe};
ghost use Rattle.engine_outputs.specs.Writing.{RefusesNothing, image_outputs};

use engine_steps::{Answer, PIECE, Stop, mend_stop, put_stop};
use image_mender::{Image, write_mended};
use parity_store::put;
use rip_outside::{Name, Shelf, Text};
use rip_report::Status;

/// The words of a file that are read and written at a time: two pieces, since each costs a call of either kind.
pub const WRITTEN_PIECE: usize = 2 * PIECE;

// Writes an image's words as a WAV file under this name.
fn write_image<S: Shelf>(
    shelf: &mut S,
    image: &Image,
    part: &str,
    to: &str,
    words: &mut [u16],
    bytes: &mut [u8],
) -> Result<(), Stop>
    requires part { part.now ≡ part_of to.now }
    requires room { 0 < length words.old }
    requires bytes { 0 < length bytes.old }
    requires pairs { length bytes.old % 2 ≡ 0 }
    requires free { ForSome (S.held shelf.old) (λ files. get files to.now ≡ None) }
    requires inside { ForSome (S.held shelf.old) (AreInFiles image.now) }
    requires apart { All (λ (p : Part). p.name ≢ part.now) image.now }
    ensures ok { OnOk result (Becomes (λ files. after_put part.now to.now (wav_bytes (joined_words image.now files)) files) (S.held shelf.old) (S.held shelf.new)) }
    ensures refused { IfErr result (λ stop. WhereTold (λ old new. LeavesName part.now to.now (wav_bytes (joined_words image.now old)) (stop ≡ Stop.WriteFault ShelfCall.Rename) old new) (S.held shelf.old) (S.held shelf.new)) }
    ensures writing { IfErr result RefusesNothing }
    ensures crashes { WhereForetold (StoresWhole (λ old left. LeavesName part.now to.now (wav_bytes (joined_words image.now old)) (Unit {0}) old left) (IsOk result)) (S.crashes shelf.old) (S.crashes shelf.new) }
    ensures cause { StopsWithCause (S.faults shelf.old) (S.faults shelf.new) result }
    ensures later { NoneFell (S.faults shelf.old) (S.faults shelf.new) }
    ensures taken { Takes (2 * word_count image.now) result (S.taken shelf.old) (S.taken shelf.new) }
{
    match write_mended(shelf, image, &[], part, to, words, bytes) {
        Ok(()) => Ok(()),
        Err(fail) => Err(mend_stop(fail)),
    }
}

// Writes a sheet under this name.
fn write_sheet<S: Shelf>(shelf: &mut S, sheet: &[u8], part: &str, to: &str) -> Result<(), Stop>
    requires part { part.now ≡ part_of to.now }
    requires free { ForSome (S.held shelf.old) (λ files. get files to.now ≡ None) }
    ensures ok { OnOk result (Becomes (after_put part.now to.now sheet.now) (S.held shelf.old) (S.held shelf.new)) }
    ensures refused { IfErr result (λ stop. WhereTold (LeavesName part.now to.now sheet.now (stop ≡ Stop.WriteFault ShelfCall.Rename)) (S.held shelf.old) (S.held shelf.new)) }
    ensures writing { IfErr result RefusesNothing }
    ensures crashes { WhereForetold (PutsWhole part.now to.now sheet.now (IsOk result)) (S.crashes shelf.old) (S.crashes shelf.new) }
    ensures cause { StopsWithCause (S.faults shelf.old) (S.faults shelf.new) result }
    ensures later { NoneFell (S.faults shelf.old) (S.faults shelf.new) }
    ensures taken { S.taken shelf.new ≡ S.taken shelf.old }
{
    match put(shelf, sheet, part, to) {
        Ok(()) => Ok(()),
        Err(fail) => Err(put_stop(fail)),
    }
}

/// Writes the images' words as WAV files, one after another, and then the sheet, under these names in their order. Words
/// go through `words`, and bytes through `bytes`. It takes no memory of its own.
#[tactic(auto, using(engine_steps::proofs::CrashingLaws::safe_none))]
pub fn write_files<S: Shelf>(
    shelf: &mut S,
    images: &[Image],
    sheet: &[u8],
    outs: &[Name],
    parts: &[Name],
    text: Text,
    words: &mut [u16],
    bytes: &mut [u8],
) -> Result<Answer, Stop>
    requires names { length outs.now ≡ length images.now + 1 }
    requires parts { parts.now ≡ map part_of outs.now }
    requires room { 0 < length words.old }
    requires bytes { 0 < length bytes.old }
    requires pairs { length bytes.old % 2 ≡ 0 }
    requires distinct { AllPairs (λ earlier later. later ≢ earlier) outs.now }
    requires free { ForSome (S.held shelf.old) (λ files. All (λ out. get files out ≡ None) outs.now) }
    requires inside { ForSome (S.held shelf.old) (λ files. All (λ image. AreInFiles image files) images.now) }
    requires apart { All (λ (image : List Part). All (λ (p : Part). Contains parts.now p.name → ⊥) image) images.now }
    ensures leaves { IfSome (S.held shelf.old) (λ files. Leaves (λ o. o ≡ written text (image_outputs outs.now images.now sheet.now files)) files result (S.held shelf.new)) }
    ensures crashes { CrashSafe (λ files o. o ≡ written text (image_outputs outs.now images.now sheet.now files)) (ComesToEnd result) (S.crashes shelf.old) (S.crashes shelf.new) }
    ensures cause { EndsWithCause (S.faults shelf.old) (S.faults shelf.new) result }
    ensures later { NoneFell (S.faults shelf.old) (S.faults shelf.new) }
    ensures taken { Takes (2 * sum_by word_count images.now) result (S.taken shelf.old) (S.taken shelf.new) }
{
    for i in 0..images.len() {
        let part = parts[i].as_str();
        let to = outs[i].as_str();
        write_image(shelf, &images[i], part, to, words, bytes)?;
    }
    let last = images.len();
    let sheet_part = parts[last].as_str();
    let sheet_to = outs[last].as_str();
    write_sheet(shelf, sheet, sheet_part, sheet_to)?;
    Ok(Answer {
        status: Status::Done,
        text,
    })
}
