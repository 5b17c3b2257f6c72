//! The command `join`: a rip as one file, and its sheet.
#![tactic(auto)]

ghost use Rattle.std.specs.Prelude.{◌≡◌, ◌*◌, List, ℕ, All, Contains, IfSome, None, length, map};
ghost use Rattle.std.specs.Option.{ForSome};
ghost use Rattle.std.specs.FinMap.{get};
ghost use Rattle.rip_outside.specs.Causes.{NoneFell};
ghost use Rattle.rip_outside.specs.Outputs.{part_of};
ghost use Rattle.disc_toc.specs.Toc.{toc_of};
ghost use Rattle.image_mender.specs.declared.image.Part.{Part};
ghost use Rattle.image_mender.specs.Joined.{AreInFiles, joined_words, word_count};
ghost use Rattle.rip_inputs.specs.Opening.{lengths_of, names_read};
ghost use Rattle.track_split.specs.Tracks.{join_names, join_outputs};
ghost use Rattle.rip_words.specs.FileNames.{name_in_folder};
ghost use Rattle.rip_report.specs.Texts.{joined_line};
ghost use Rattle.engine_steps.specs.Crashing.{CrashSafe};
ghost use Rattle.engine_steps.specs.Outcome.{Leaves, written};
ghost use Rattle.engine_steps.specs.Steps.{ComesToEnd, EndsWithCause, Takes};
ghost use Rattle.cmd_join.specs.JoinOutcome.{IsJoinOutcome};

use disc_toc::Layout;
use engine_outputs::{WRITTEN_PIECE, check_outputs, part_names, write_files};
use engine_steps::{Answer, Stop, open_input, zero_bytes, zero_words};
use image_mender::Image;
use rip_inputs::Rip;
use rip_outside::{Name, Shelf};
use rip_report::{Report, text_of};
use rip_words::name_in_folder;
use std::alloc::Global;
use track_split::{join_names, join_sheet};

// Writes the words of a rip that was opened, and the sheet, under these names. All memory is taken before.
#[tactic(auto, using(engine_steps::proofs::CrashingLaws::safe_none))]
fn write_join<S: Shelf>(
    alloc: Global,
    shelf: &mut S,
    layout: &Layout,
    image: Image,
    to: &str,
    outs: &[Name],
    parts: &[Name],
) -> Result<Answer, Stop>
    requires outs { outs.now ≡ join_names to.now }
    requires parts { parts.now ≡ map part_of outs.now }
    requires free { ForSome (S.held shelf.old) (λ files. All (λ out. get files out ≡ None) outs.now) }
    requires inside { ForSome (S.held shelf.old) (AreInFiles image) }
    requires apart { All (λ (p : Part). Contains parts.now p.name → ⊥) image }
    requires count { word_count image ≡ 1176 * layout.now.sectors }
    ensures leaves { IfSome (S.held shelf.old) (λ files. Leaves (λ o. o ≡ written (joined_line to.now layout.now.sectors) (join_outputs to.now (name_in_folder to.now) (toc_of layout.now) (joined_words image files))) files result (S.held shelf.new)) }
    ensures crashes { CrashSafe (λ files o. o ≡ written (joined_line to.now layout.now.sectors) (join_outputs to.now (name_in_folder to.now) (toc_of layout.now) (joined_words image files))) (ComesToEnd result) (S.crashes shelf.old) (S.crashes shelf.new) }
    ensures cause { EndsWithCause (S.faults shelf.old) (S.faults shelf.new) result }
    ensures later { NoneFell (S.faults shelf.old) (S.faults shelf.new) }
    ensures taken { Takes (2 * word_count image) result (S.taken shelf.old) (S.taken shelf.new) }
{
    let sheet = join_sheet(alloc, layout, name_in_folder(to))?;
    let report = Report::Joined {
        name: Name::copied(alloc, to)?,
        sectors: layout.sectors,
    };
    let text = text_of(alloc, &report)?;
    let mut words = zero_words(alloc, WRITTEN_PIECE)?;
    let mut bytes = zero_bytes(alloc, 2 * WRITTEN_PIECE)?;
    write_files(
        shelf,
        &[image],
        &sheet,
        outs,
        parts,
        text,
        &mut words,
        &mut bytes,
    )
}

/// Writes a rip as one file under a name, and then its sheet beside it.
#[tactic(auto, using(engine_steps::proofs::CrashingLaws::safe_rests))]
pub fn join<S: Shelf>(alloc: Global, shelf: &mut S, input: &str, to: &str) -> Result<Answer, Stop>
    ensures leaves { IfSome (S.held shelf.old) (λ files. Leaves (IsJoinOutcome input.now to.now files) files result (S.held shelf.new)) }
    ensures crashes { CrashSafe (IsJoinOutcome input.now to.now) (ComesToEnd result) (S.crashes shelf.old) (S.crashes shelf.new) }
    ensures cause { EndsWithCause (S.faults shelf.old) (S.faults shelf.new) result }
    ensures later { NoneFell (S.faults shelf.old) (S.faults shelf.new) }
    ensures taken { IfSome (S.held shelf.old) (λ files. Takes (3 * lengths_of (names_read input.now files) files) result (S.taken shelf.old) (S.taken shelf.new)) }
{
    let Rip {
        layout,
        image,
        names,
    } = open_input(alloc, shelf, input)?;
    let outs = join_names(alloc, to)?;
    let parts = part_names(alloc, outs.as_slice())?;
    check_outputs(
        alloc,
        shelf,
        outs.as_slice(),
        parts.as_slice(),
        names.as_slice(),
    )?;
    write_join(
        alloc,
        shelf,
        &layout,
        image,
        to,
        outs.as_slice(),
        parts.as_slice(),
    )
}
