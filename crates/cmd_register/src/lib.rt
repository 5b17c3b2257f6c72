//! The command `register`: the parity of a rip, stored as a record.
#![tactic(auto)]

ghost use Rattle.std.specs.Prelude.{◌≡◌, ◌*◌, ◌∷◌, [], IfSome, None};
ghost use Rattle.std.specs.Option.{ForSome};
ghost use Rattle.std.specs.FinMap.{get};
ghost use Rattle.rip_outside.specs.Outputs.{part_of};
ghost use Rattle.rip_outside.specs.Causes.{NoneFell};
ghost use Rattle.disc_toc.specs.Toc.{toc_of};
ghost use Rattle.image_mender.specs.Joined.{AreInFiles, joined_words, word_count};
ghost use Rattle.rip_inputs.specs.Opening.{lengths_of, names_read};
ghost use Rattle.column_map.specs.Npar.{parity_words};
ghost use Rattle.engine_steps.specs.Steps.{ComesToEnd, EndsWithCause, Takes};
ghost use Rattle.rip_report.specs.Texts.{registered_line};
ghost use Rattle.engine_steps.specs.Crashing.{CrashSafe};
ghost use Rattle.cmd_register.specs.RegisterOutcome.{IsRegisterOutcome};
ghost use Rattle.engine_steps.specs.Outcome.{Leaves, output, written};
ghost use Rattle.engine_words.specs.Records.{record_of};

use column_map::{Npar, Shape};
use disc_toc::Layout;
use engine_steps::{Answer, Stop, check_free, is_among, open_measured, part_name, write_out};
use engine_words::parity_and_seal;
use image_mender::Image;
use parity_store::{Record, record_bytes, record_name};
use rip_inputs::Rip;
use rip_outside::{Name, Shelf};
use rip_report::{Report, text_of};
use std::alloc::Global;

// Stores a rip that was opened: its parity is summed, and its seal, and the record stands under its name.
#[tactic(auto, using(engine_steps::proofs::CrashingLaws::safe_rests))]
fn store<S: Shelf>(
    alloc: Global,
    shelf: &mut S,
    layout: Layout,
    image: &Image,
    shape: Shape,
    npar: Npar,
    part: &str,
    name: &str,
) -> Result<Answer, Stop>
    requires part { part.now ≡ part_of name.now }
    requires free { ForSome (S.held shelf.old) (λ files. get files name.now ≡ None) }
    requires inside { ForSome (S.held shelf.old) (AreInFiles image.now) }
    requires shape { shape ≡ layout.sectors }
    requires count { word_count image.now ≡ 1176 * shape }
    ensures leaves { IfSome (S.held shelf.old) (λ files. Leaves (λ o. o ≡ written (registered_line name.now layout.sectors (parity_words npar)) (output name.now (record_of (parity_words npar) (toc_of layout) (joined_words image.now files)) ∷ [])) files result (S.held shelf.new)) }
    ensures crashes { CrashSafe (λ files o. o ≡ written (registered_line name.now layout.sectors (parity_words npar)) (output name.now (record_of (parity_words npar) (toc_of layout) (joined_words image.now files)) ∷ [])) (ComesToEnd result) (S.crashes shelf.old) (S.crashes shelf.new) }
    ensures cause { EndsWithCause (S.faults shelf.old) (S.faults shelf.new) result }
    ensures later { NoneFell (S.faults shelf.old) (S.faults shelf.new) }
    ensures taken { Takes (2 * word_count image.now) result (S.taken shelf.old) (S.taken shelf.new) }
{
    let sectors = layout.sectors;
    let (parity, seal) = parity_and_seal(alloc, shelf, image, shape, npar)?;
    let npar = parity.count() as u32;
    let seal = Some(seal);
    let record = Record {
        layout,
        parity,
        seal,
    };
    let bytes = record_bytes(alloc, &record)?;
    let registered = Report::Registered {
        name: Name::copied(alloc, name)?,
        sectors,
        npar,
    };
    let text = text_of(alloc, &registered)?;
    write_out(shelf, &bytes, part, name, text)
}

/// Stores the parity of a rip under the record's name.
#[tactic(auto, using(engine_steps::proofs::CrashingLaws::safe_rests))]
pub fn register<S: Shelf>(
    alloc: Global,
    shelf: &mut S,
    input: &str,
    rec: &str,
    npar: Npar,
) -> Result<Answer, Stop>
    ensures leaves { IfSome (S.held shelf.old) (λ files. Leaves (IsRegisterOutcome input.now rec.now (parity_words npar) files) files result (S.held shelf.new)) }
    ensures crashes { CrashSafe (IsRegisterOutcome input.now rec.now (parity_words npar)) (ComesToEnd result) (S.crashes shelf.old) (S.crashes shelf.new) }
    ensures cause { EndsWithCause (S.faults shelf.old) (S.faults shelf.new) result }
    ensures later { NoneFell (S.faults shelf.old) (S.faults shelf.new) }
    ensures taken { IfSome (S.held shelf.old) (λ files. Takes (3 * lengths_of (names_read input.now files) files) result (S.taken shelf.old) (S.taken shelf.new)) }
{
    let (rip, shape) = open_measured(alloc, shelf, input)?;
    let Rip {
        layout,
        image,
        names,
    } = rip;
    let name = record_name(alloc, rec, &layout)?;
    let part = part_name(alloc, name.as_str())?;
    let is_read = is_among(part.as_str(), names.as_slice());
    check_free(alloc, shelf, name.as_str(), part.as_str(), is_read)?;
    store(
        alloc,
        shelf,
        layout,
        &image,
        shape,
        npar,
        part.as_str(),
        name.as_str(),
    )
}
