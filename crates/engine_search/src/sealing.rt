// The seal of a rip's words at an offset.
ghost use Rattle.std.specs.Prelude.{◌≡◌, ◌*◌, ◌%◌, ◌<◌, ◌≤◌, IfSome, IfOk, length};
ghost use Rattle.std.specs.Option.{ForSome};
ghost use Rattle.rip_outside.specs.Reading.{OnlyReads};
ghost use Rattle.image_mender.specs.Joined.{AreInFiles, joined_words, word_count};
ghost use Rattle.image_mender.specs.Seal.{seal_of_table};
ghost use Rattle.column_map.specs.Columns.{IsSectorCount, WordTable, per_column};
ghost use Rattle.column_map.specs.Mending.{AreFixes};
ghost use Rattle.engine_steps.specs.Steps.{ReadsOnly, Takes};
ghost use Rattle.engine_search.specs.Picking.{LieInColumns};

use column_map::{Fix, STRIDE, Shape};
use engine_steps::Stop;
use image_mender::{Image, RunSeal, seal_of};
use rip_outside::{Shelf, ShelfCall};

/// The seal of those of a rip's words that stand in columns at an offset, in samples, once they are mended by these fixes.
/// They are read anew, by way of `words` and `bytes`, and no memory is taken. Words that are all one, as in silence, aren't
/// hashed again where the seal of as many was kept.
pub fn seal_at<S: Shelf>(
    shelf: &mut S,
    image: &Image,
    shape: Shape,
    d: i32,
    fixes: &[Fix],
    words: &mut [u16],
    bytes: &mut [u8],
    kept: &mut Option<RunSeal>,
) -> Result<[u8; 32], Stop>
    requires inside { ForSome (S.held shelf.old) (AreInFiles image.now) }
    requires count { word_count image.now ≡ 1176 * shape }
    requires range { IsSectorCount shape }
    requires lie { LieInColumns (per_column shape) d fixes.now }
    requires room { 0 < length words.old }
    requires bytes { 2 * length words.old ≤ length bytes.old }
    requires pairs { length bytes.old % 2 ≡ 0 }
    ensures seal { IfSome (S.held shelf.old) (λ files. (table : WordTable) → AreFixes (per_column shape) (joined_words image.now files) d table fixes.now → IfOk result (λ seal. seal ≡ seal_of_table (per_column shape) table)) }
    ensures only { OnlyReads S.Shelf shelf.old shelf.new }
    ensures cause { ReadsOnly (S.faults shelf.old) (S.faults shelf.new) result }
    ensures taken { Takes (2 * word_count image.now) result (S.taken shelf.old) (S.taken shelf.new) }
{
    let first = u64::from(shape.place(d, 0, 0));
    let count = u64::from(shape.per_column() * STRIDE);
    match seal_of(shelf, image, first, count, fixes, words, bytes, kept) {
        Ok(seal) => Ok(seal),
        Err(_) => Err(Stop::ReadFault {
            call: ShelfCall::ReadAt,
        }),
    }
}
