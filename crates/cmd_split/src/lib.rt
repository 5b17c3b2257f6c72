//! The command `split`: each track of a rip as a file of its own, and their sheet.
#![tactic(auto)]

ghost use Rattle.std.specs.Prelude.{◌≡◌, ◌*◌, List, ℕ, All, Contains, IfSome, None, length, map};
ghost use Rattle.std.specs.Option.{ForSome};
ghost use Rattle.std.specs.FinMap.{get};
ghost use Rattle.rip_outside.specs.Causes.{NoneFell};
ghost use Rattle.rip_outside.specs.Outputs.{part_of};
ghost use Rattle.disc_toc.specs.Toc.{toc_of};
ghost use Rattle.image_mender.specs.declared.image.Part.{Part};
ghost use Rattle.image_mender.specs.Joined.{AreInFiles, joined_words, word_count};
ghost use Rattle.rip_inputs.specs.Opening.{lengths_of, names_read};
ghost use Rattle.track_split.specs.Tracks.{split_names, split_outputs};
ghost use Rattle.rip_report.specs.Texts.{split_line};
ghost use Rattle.engine_steps.specs.Crashing.{CrashSafe};
ghost use Rattle.engine_steps.specs.Outcome.{Leaves, written};
ghost use Rattle.engine_steps.specs.Steps.{ComesToEnd, EndsWithCause, Takes};
ghost use Rattle.cmd_split.specs.SplitOutcome.{IsSplitOutcome};

use disc_toc::Layout;
use engine_outputs::{WRITTEN_PIECE, check_outputs, part_names, write_files};
use engine_steps::{Answer, Stop, open_input, zero_bytes, zero_words};
use image_mender::Image;
use rip_inputs::Rip;
use rip_outside::{Name, Shelf};
use rip_report::{Report, text_of};
use std::alloc::Global;
use track_split::{cut_tracks, split_names, split_sheet};

// Writes the tracks of a rip that was opened, and their sheet, under these names. All memory is taken before.
#[tactic(auto, using(engine_steps::proofs::CrashingLaws::safe_none))]
fn write_split<S: Shelf>(
    alloc: Global,
    shelf: &mut S,
    layout: &Layout,
    image: &Image,
    folder: &str,
    outs: &[Name],
    parts: &[Name],
) -> Result<Answer, Stop>
    requires outs { outs.now ≡ split_names folder.now (length layout.now.starts) }
    requires parts { parts.now ≡ map part_of outs.now }
    requires free { ForSome (S.held shelf.old) (λ files. All (λ out. get files out ≡ None) outs.now) }
    requires inside { ForSome (S.held shelf.old) (AreInFiles image.now) }
    requires apart { All (λ (p : Part). Contains parts.now p.name → ⊥) image.now }
    requires count { word_count image.now ≡ 1176 * layout.now.sectors }
    ensures leaves { IfSome (S.held shelf.old) (λ files. Leaves (λ o. o ≡ written (split_line folder.now (length layout.now.starts)) (split_outputs folder.now (toc_of layout.now) (joined_words image.now files))) files result (S.held shelf.new)) }
    ensures crashes { CrashSafe (λ files o. o ≡ written (split_line folder.now (length layout.now.starts)) (split_outputs folder.now (toc_of layout.now) (joined_words image.now files))) (ComesToEnd result) (S.crashes shelf.old) (S.crashes shelf.new) }
    ensures cause { EndsWithCause (S.faults shelf.old) (S.faults shelf.new) result }
    ensures later { NoneFell (S.faults shelf.old) (S.faults shelf.new) }
    ensures taken { Takes (2 * word_count image.now) result (S.taken shelf.old) (S.taken shelf.new) }
{
    let pieces = cut_tracks(alloc, layout, image)?;
    let sheet = split_sheet(alloc, layout)?;
    let report = Report::SplitInto {
        folder: Name::copied(alloc, folder)?,
        tracks: layout.starts.as_slice().len() as u32,
    };
    let text = text_of(alloc, &report)?;
    let mut words = zero_words(alloc, WRITTEN_PIECE)?;
    let mut bytes = zero_bytes(alloc, 2 * WRITTEN_PIECE)?;
    let images = pieces.as_slice();
    write_files(
        shelf, images, &sheet, outs, parts, text, &mut words, &mut bytes,
    )
}

/// Writes each track of a rip as a file of its own in a folder, and then their sheet.
#[tactic(auto, using(engine_steps::proofs::CrashingLaws::safe_rests))]
pub fn split<S: Shelf>(
    alloc: Global,
    shelf: &mut S,
    input: &str,
    folder: &str,
) -> Result<Answer, Stop>
    ensures leaves { IfSome (S.held shelf.old) (λ files. Leaves (IsSplitOutcome input.now folder.now files) files result (S.held shelf.new)) }
    ensures crashes { CrashSafe (IsSplitOutcome input.now folder.now) (ComesToEnd result) (S.crashes shelf.old) (S.crashes shelf.new) }
    ensures cause { EndsWithCause (S.faults shelf.old) (S.faults shelf.new) result }
    ensures later { NoneFell (S.faults shelf.old) (S.faults shelf.new) }
    ensures taken { IfSome (S.held shelf.old) (λ files. Takes (3 * lengths_of (names_read input.now files) files) result (S.taken shelf.old) (S.taken shelf.new)) }
{
    let Rip {
        layout,
        image,
        names,
    } = open_input(alloc, shelf, input)?;
    let outs = split_names(alloc, folder, layout.starts.as_slice().len())?;
    let parts = part_names(alloc, outs.as_slice())?;
    check_outputs(
        alloc,
        shelf,
        outs.as_slice(),
        parts.as_slice(),
        names.as_slice(),
    )?;
    write_split(
        alloc,
        shelf,
        &layout,
        &image,
        folder,
        outs.as_slice(),
        parts.as_slice(),
    )
}
