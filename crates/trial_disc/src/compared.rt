// Whether a mended rip has a disc's words.
ghost use Rattle.std.specs.Prelude.{◌≡◌, ◌*◌, ◌↔◌, IsTrue, length};
ghost use Rattle.rip_basics.specs.Disc.{sector_words};
ghost use Rattle.column_map.specs.Columns.{IsOffset, per_column};
ghost use Rattle.trial_disc.specs.Compared.{SameCovered};

use column_map::Shape;

// A stride, in words.
const STRIDE: usize = column_map::STRIDE as usize;

/// Whether a mended rip at the offset `d` has the disc's word at each place of a column. It takes no memory.
pub fn same_covered(shape: Shape, d: i32, mended: &[u16], disc: &[u16]) -> bool
    requires mended_whole { length mended.now ≡ sector_words * shape }
    requires disc_whole { length disc.now ≡ sector_words * shape }
    requires offset { IsOffset d }
    ensures { IsTrue result ↔ SameCovered (per_column shape) d mended.now disc.now }
{
    let count = shape.per_column() as usize * STRIDE;
    let first = shape.start_of(d, 0) as usize;
    mended[first..first + count] == disc[STRIDE..STRIDE + count]
}
