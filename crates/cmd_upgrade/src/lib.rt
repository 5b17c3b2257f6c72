//! The command `upgrade`: a record without a seal gets that of a rip without wrong words.
#![tactic(auto)]

ghost use Rattle.std.specs.Prelude.{◌≡◌, ◌*◌, ℕ, List, false, IfSome, IfOk, None};
ghost use Rattle.std.specs.List.{list_any};
ghost use Rattle.std.specs.Str.{bytes_eq};
ghost use Rattle.std.specs.Option.{ForSome};
ghost use Rattle.rip_outside.specs.Files.{IsHeld};
ghost use Rattle.rip_outside.specs.Outputs.{part_of};
ghost use Rattle.rip_outside.specs.Causes.{NoneFell};
ghost use Rattle.column_map.specs.Columns.{IsSectorCount, per_column};
ghost use Rattle.disc_toc.specs.Toc.{toc_of};
ghost use Rattle.image_mender.specs.Joined.{AreInFiles, joined_words, word_count};
ghost use Rattle.parity_store.specs.Record.{parity_count, parity_rows};
ghost use Rattle.rip_inputs.specs.Opening.{lengths_of};
ghost use Rattle.engine_steps.specs.Comparing.{compared_names};
ghost use Rattle.engine_steps.specs.Crashing.{CrashSafe};
ghost use Rattle.engine_steps.specs.Outcome.{Leaves};
ghost use Rattle.engine_steps.specs.Steps.{ComesToEnd, Does, EndsWithCause, OnlyRefuses, Takes, known_from};
ghost use Rattle.engine_search.specs.Picking.{LieInColumns, Mends};
ghost use Rattle.cmd_upgrade.specs.UpgradeOutcome.{IsSealedOutcome, IsUpgradeOutcome, upgradable};

use column_map::Shape;
use disc_toc::Layout;
use engine_search::{Picked, mend_of, seal_at};
use engine_steps::{
    Answer, Compared, PIECE, Stop, compare, is_read, part_name, replace_out, zero_bytes, zero_words,
};
use image_mender::Image;
use parity_store::{Parity, Record, record_bytes};
use rip_outside::{Name, Shelf};
use rip_report::{Report, Status, text_of};
use std::alloc::Global;

// Sees that the record of this name has no seal, and that the name under which it is made anew isn't one that is read.
fn check_upgradable(
    alloc: Global,
    name: &str,
    part: &str,
    seal: Option<[u8; 32]>,
    is_read: bool,
) -> Result<(), Stop>
    requires { part.now ≡ part_of name.now }
    ensures answer { (read : List (List ℕ)) → is_read ≡ list_any (bytes_eq part.now) read → Does (λ _. tt) result (upgradable name.now seal read) }
    ensures unsealed { IfOk result (λ _. seal ≡ None) }
    ensures unread { IfOk result (λ _. is_read ≡ false) }
    ensures cause { OnlyRefuses result }
{
    if seal.is_some() {
        let name = Name::copied(alloc, name)?;
        return Err(Stop::Refused(Status::Sealed { name }));
    }
    if is_read {
        let name = Name::copied(alloc, part)?;
        return Err(Stop::Refused(Status::OutExists { name }));
    }
    Ok(())
}

// Gives a record without a seal that of a rip that was picked, which has no wrong word: the record of this layout and
// parity stands under the name anew.
fn seal_record<S: Shelf>(
    alloc: Global,
    shelf: &mut S,
    layout: Layout,
    parity: Parity,
    image: &Image,
    shape: Shape,
    picked: &Picked,
    part: &str,
    name: &str,
) -> Result<Answer, Stop>
    requires part { part.now ≡ part_of name.now }
    requires held { ForSome (S.held shelf.old) (IsHeld name.now) }
    requires inside { ForSome (S.held shelf.old) (AreInFiles image.now) }
    requires count { word_count image.now ≡ 1176 * shape }
    requires range { IsSectorCount shape }
    requires lie { LieInColumns (per_column shape) picked.now.at.offset picked.now.fixes.items }
    requires mends { IfSome (S.held shelf.old) (λ files. Mends (known_from shape (joined_words image.now files) (parity_count parity) (parity_rows parity) None) picked.now.at picked.now.fixes.items) }
    ensures leaves { IfSome (S.held shelf.old) (λ files. Leaves (IsSealedOutcome name.now (toc_of layout) (known_from shape (joined_words image.now files) (parity_count parity) (parity_rows parity) None) picked.now.at) files result (S.held shelf.new)) }
    ensures crashes { CrashSafe (λ files. IsSealedOutcome name.now (toc_of layout) (known_from shape (joined_words image.now files) (parity_count parity) (parity_rows parity) None) picked.now.at) (ComesToEnd result) (S.crashes shelf.old) (S.crashes shelf.new) }
    ensures cause { EndsWithCause (S.faults shelf.old) (S.faults shelf.new) result }
    ensures later { NoneFell (S.faults shelf.old) (S.faults shelf.new) }
    ensures taken { Takes (2 * word_count image.now) result (S.taken shelf.old) (S.taken shelf.new) }
{
    let at = picked.at;
    if at.errors != 0 {
        return Err(Stop::Refused(Status::Mendable {
            offset: at.offset,
            errors: at.errors,
            columns: at.columns,
        }));
    }
    let mut words = zero_words(alloc, PIECE)?;
    let mut bytes = zero_bytes(alloc, 2 * PIECE)?;
    let fixes = &picked.fixes;
    let mut kept = None;
    let seal = Some(seal_at(
        shelf, image, shape, at.offset, fixes, &mut words, &mut bytes, &mut kept,
    )?);
    let record = Record {
        layout,
        parity,
        seal,
    };
    let stored = record_bytes(alloc, &record)?;
    let upgraded = Report::Upgraded {
        at,
        name: Name::copied(alloc, name)?,
    };
    let text = text_of(alloc, &upgraded)?;
    replace_out(shelf, &stored, part, name, text)
}

/// Gives a record without a seal that of a rip that agrees with it at one offset alone and has no wrong word there. The
/// record's name holds its old or its new bytes at each moment.
#[tactic(auto, using(engine_steps::proofs::CrashingLaws::safe_rests))]
pub fn upgrade<S: Shelf>(
    alloc: Global,
    shelf: &mut S,
    input: &str,
    rec: &str,
) -> Result<Answer, Stop>
    ensures leaves { IfSome (S.held shelf.old) (λ files. Leaves (IsUpgradeOutcome input.now rec.now files) files result (S.held shelf.new)) }
    ensures crashes { CrashSafe (IsUpgradeOutcome input.now rec.now) (ComesToEnd result) (S.crashes shelf.old) (S.crashes shelf.new) }
    ensures cause { EndsWithCause (S.faults shelf.old) (S.faults shelf.new) result }
    ensures later { NoneFell (S.faults shelf.old) (S.faults shelf.new) }
    ensures taken { IfSome (S.held shelf.old) (λ files. Takes (3 * lengths_of (compared_names input.now rec.now files) files) result (S.taken shelf.old) (S.taken shelf.new)) }
{
    let Compared {
        layout,
        image,
        shape,
        parity,
        seal,
        names,
        rec: name,
    } = compare(alloc, shelf, input, rec)?;
    let part = part_name(alloc, name.as_str())?;
    let is_read = is_read(part.as_str(), names.as_slice(), name.as_str());
    check_upgradable(alloc, name.as_str(), part.as_str(), seal, is_read)?;
    let kept = parity.copied(alloc)?;
    let picked = mend_of(alloc, shelf, &image, shape, parity, None, None)?;
    seal_record(
        alloc,
        shelf,
        layout,
        kept,
        &image,
        shape,
        &picked,
        part.as_str(),
        name.as_str(),
    )
}
