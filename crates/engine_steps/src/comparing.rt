// A rip and a record of its disc, found and compared.
ghost use Rattle.std.specs.Prelude.{◌≡◌, ◌*◌, All, Contains, Ok, IfSome, IfOk};
ghost use Rattle.rip_outside.specs.Reading.{OnlyReads};
ghost use Rattle.column_map.specs.Columns.{IsSectorCount};
ghost use Rattle.image_mender.specs.Joined.{AreInFiles, word_count};
ghost use Rattle.image_mender.specs.declared.image.Part.{Part};
ghost use Rattle.disc_toc.specs.Toc.{toc_of};
ghost use Rattle.parity_store.specs.Naming.{record_name_of};
ghost use Rattle.rip_inputs.specs.Opening.{Opened, lengths_of};
ghost use Rattle.engine_steps.specs.Steps.{compared, measured, Does, ReadsWithCause, Takes};
ghost use Rattle.engine_steps.specs.Comparing.{compared_names, both_of};

use crate::steps::{Stop, check_layout, find_record, open_measured};
use column_map::Shape;
use disc_toc::Layout;
use image_mender::Image;
use parity_store::{Parity, record_name};
use rip_inputs::Rip;
use rip_outside::{Name, Names, Shelf};
use std::alloc::Global;

/// A rip's layout, image and shape, the stored parity and the seal of its disc, and the names that were read: those of the rip's files, and
/// the record's.
#[derive(Drop)]
pub struct Compared {
    pub layout: Layout,
    pub image: Image,
    pub shape: Shape,
    pub parity: Parity,
    pub seal: Option<[u8; 32]>,
    pub names: Names,
    pub rec: Name,
}

/// Opens the rip, finds the record, and sees that both are of one layout.
pub fn compare<S: Shelf>(
    alloc: Global,
    shelf: &mut S,
    input: &str,
    rec: &str,
) -> Result<Compared, Stop>
    ensures answer { IfSome (S.held shelf.old) (λ files. Does (both_of files) result (compared input.now rec.now files)) }
    ensures inside { IfSome (S.held shelf.old) (λ files. IfOk result (λ found. AreInFiles found.image files)) }
    ensures count { IfOk result (λ found. word_count found.image ≡ 1176 * found.shape) }
    ensures range { IfOk result (λ found. IsSectorCount found.shape) }
    ensures named { IfOk result (λ found. All (λ (part : Part). Contains found.names part.name) found.image) }
    ensures opens { IfSome (S.held shelf.old) (λ files. IfOk result (λ found. (rip : Opened) × (measured input.now files ≡ Ok rip) × (rip.toc ≡ toc_of found.layout))) }
    ensures own { IfOk result (λ found. found.rec ≡ record_name_of rec.now (toc_of found.layout)) }
    ensures only { OnlyReads S.Shelf shelf.old shelf.new }
    ensures cause { ReadsWithCause (S.faults shelf.old) (S.faults shelf.new) result }
    ensures taken { IfSome (S.held shelf.old) (λ files. Takes (lengths_of (compared_names input.now rec.now files) files) result (S.taken shelf.old) (S.taken shelf.new)) }
{
    let (rip, shape) = open_measured(alloc, shelf, input)?;
    let Rip {
        layout,
        image,
        names,
    } = rip;
    let name = record_name(alloc, rec, &layout)?;
    let stored = find_record(alloc, shelf, name.as_str())?;
    check_layout(&layout, &stored.layout)?;
    Ok(Compared {
        layout,
        image,
        shape,
        parity: stored.parity,
        seal: stored.seal,
        names,
        rec: name,
    })
}
