// Opening a rip by its name.
ghost use Rattle.std.specs.Prelude.{◌≡◌, ◌*◌, All, Contains, length, IfOk, IfSome, IsTrue};
ghost use Rattle.rip_outside.specs.Reading.{OnlyReads};
ghost use Rattle.cue_sheet.specs.Reading.{sheet_of};
ghost use Rattle.disc_toc.specs.OneTrack.{Answers};
ghost use Rattle.disc_toc.specs.Joined.{layout_reading};
ghost use Rattle.image_mender.specs.Joined.{AreInFiles, word_count};
ghost use Rattle.image_mender.specs.declared.image.Part.{Part};
ghost use Rattle.rip_inputs.specs.Opening.{IsTooLong, is_sheet, lengths_of, names_read, rip_reading};
ghost use Rattle.rip_inputs.specs.Telling.{OpeningHasCause, IsShort, OpensRip, OpeningTakes, counts_of};

use crate::naming::names_read;
use crate::rip::{Rip, RipFail};
use crate::sheet::open_disc_sheet;
use crate::wavs::open_wavs;
use cue_sheet::Cue;
use disc_toc::{Layout, LayoutFail, layout_of};
use image_mender::{Image, Part};
use rip_outside::Shelf;
use std::alloc::{AllocError, Global};

// How many words each part has.
fn counts_of(alloc: Global, parts: &[Part]) -> Result<Vec<u64>, AllocError>
    ensures { IfOk result (λ counts. counts.items ≡ counts_of parts.now) }
{
    let mut counts = Vec::new(alloc);
    for part in parts {
        counts.push(part.words)?;
    }
    Ok(counts)
}

// The layout of a sheet whose files' words are these parts.
fn lay_out(alloc: Global, cue: &Cue, parts: &[Part]) -> Result<Layout, LayoutFail>
    requires same { length parts.now ≡ length cue.now.files }
    requires short { All IsShort parts.now }
    ensures answer { Answers result (layout_reading (sheet_of cue.now) (counts_of parts.now)) }
    ensures count { IfOk result (λ layout. word_count parts.now ≡ 1176 * layout.sectors) }
{
    match counts_of(alloc, parts) {
        Ok(counts) => layout_of(alloc, cue, &counts),
        Err(_) => Err(LayoutFail::Oom),
    }
}

/// OpensRip the rip of this name: the layout of its disc, its words, and the names of the files that were read. A name that
/// ends in `.cue`, in any case of its letters, is that of a cue sheet, whose files' names stand behind its folder unless
/// they begin with `/`. Any other is that of one WAV file, which is one track.
///
/// The first refusal is answered: of the sheet, which has at most 1,048,576 bytes, of the WAV files in their order, or of
/// the layout. It only reads, and takes no more bytes of the shelf than the files have that are read; a longer sheet isn't
/// read at all.
pub fn open_rip<S: Shelf>(alloc: Global, shelf: &mut S, input: &str) -> Result<Rip, RipFail>
    ensures answer { IfSome (S.held shelf.old) (λ files. OpensRip result files (rip_reading input.now files)) }
    ensures inside { IfSome (S.held shelf.old) (λ files. IfOk result (λ rip. AreInFiles rip.image files)) }
    ensures count { IfOk result (λ rip. word_count rip.image ≡ 1176 * rip.layout.sectors) }
    ensures named { IfOk result (λ rip. All (λ (part : Part). Contains rip.names part.name) rip.image) }
    ensures only { OnlyReads S.Shelf shelf.old shelf.new }
    ensures cause { OpeningHasCause (S.faults shelf.old) (S.faults shelf.new) result }
    ensures taken { OpeningTakes (S.held shelf.old) (λ files. lengths_of (names_read input.now files) files) result (S.taken shelf.old) (S.taken shelf.new) }
    ensures unread { IfSome (S.held shelf.old) (λ files. IsTrue (is_sheet input.now) → IsTooLong input.now files → S.taken shelf.new ≡ S.taken shelf.old) }
{
    let cue = open_disc_sheet(alloc, shelf, input)?;
    let parts = open_wavs(alloc, shelf, cue.files.as_slice())?;
    let layout = match lay_out(alloc, &cue, &parts) {
        Ok(layout) => layout,
        Err(LayoutFail::Refused { kind }) => return Err(RipFail::LayoutRefused { kind }),
        Err(LayoutFail::Oom) => return Err(RipFail::Oom),
    };
    let names = names_read(alloc, input, cue.files.as_slice())?;
    Ok(Rip {
        layout,
        image: Image::of(parts),
        names,
    })
}
