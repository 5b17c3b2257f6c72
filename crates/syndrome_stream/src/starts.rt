// The parity of an image at each place at which a column of a rip may begin.
ghost use Rattle.std.specs.Prelude.{◌≡◌, ◌+◌, ◌-◌, ◌*◌, ◌<◌, ◌≤◌, ℕ, List, length, slice_index, vec_len};
ghost use Rattle.rip_basics.specs.Disc.{sector_words};
ghost use Rattle.column_map.specs.Columns.{per_column, stride};
ghost use Rattle.column_map.specs.Image.{AreWords};
ghost use Rattle.gf16_field.specs.Xor.{◌⊕◌};
ghost use Rattle.gf16_field.specs.Gf16.{◌⊗◌, alpha_power};
ghost use Rattle.syndrome_stream.specs.Parity.{parity_at};
ghost use Rattle.syndrome_stream.specs.Rows.{IsRow};
ghost use Rattle.syndrome_stream.specs.Starts.{StartsStandFor};

use crate::table::{STRIDE, are_words};
use column_map::Shape;
use gf16_field::{Gf, Tables, add, times_power};
use std::marker::Model;

/// Gives the parity of one image at any start: `P` syndromes of the words that stand there, a stride apart.
pub trait Starts<const P: usize> {
    /// The sectors of the image.
    ghost sectors: { Self → ℕ };

    /// The row at each start.
    ghost row: { Self → ℕ → List ℕ };

    /// The shape of the image. It takes no memory.
    fn shape(&self) -> Shape
        ensures { result ≡ sectors self.now };

    /// The row at the start `a`, which is from 2 to 35,277. It takes no memory.
    fn at_start(&self, field: &Tables, a: u32) -> [u16; P]
        requires size { P ≤ 32 }
        requires first { 2 ≤ a }
        requires last { a + 3 ≤ 3 * stride }
        ensures { result ≡ row self.now a };
}

/// Starts that keep the whole image and sum each row anew. They are seen as the image and its sectors.
#[derive(Drop)]
pub struct PlainStarts<const P: usize> {
    shape: Shape,
    words: Vec<u16>,
}

impl<const P: usize> Model for PlainStarts<P> {
    ghost use Rattle.std.specs.Prelude.{◌≡◌, ◌*◌, vec_len};
    ghost use Rattle.rip_basics.specs.Disc.{sector_words};
    ghost use Rattle.syndrome_stream.specs.Starts.{Whole};

    ghost Value = { Whole };

    ghost view = { λ starts. record { sectors = starts.shape; words = starts.words.items } };

    ghost invariant = { λ starts. vec_len starts.words ≡ sector_words * starts.shape };
}

// One more word of a column: syndrome m times the m-th power of α, and the word.
fn fold_word<const P: usize>(row: [u16; P], word: u16) -> [u16; P]
    requires { P ≤ 32 }
    ensures long { length result ≡ P }
    ensures folded { (m : ℕ) → m < P → slice_index result m ≡ alpha_power m ⊗ slice_index row.entry m ⊕ word }
{
    let mut folded = row;
    for m in 0..P {
        folded[m] = add(times_power(Gf(row[m]), m as u16), Gf(word)).0;
    }
    folded
}

// The parity of `count` words that stand at `a` and every stride after it.
fn sum_at<const P: usize>(words: &[u16], a: usize, count: usize) -> [u16; P]
    requires size { P ≤ 32 }
    requires inside { (count + 2) * stride ≤ length words.now }
    requires start { a < 3 * stride }
    ensures { result ≡ parity_at P count words.now a }
{
    are_words(words);
    let mut row = [0; P];
    for k in 0..count {
        row = fold_word(row, words[a + k * STRIDE]);
    }
    row
}

impl<const P: usize> PlainStarts<P> {
    /// Keeps the words of an image of this shape. It takes no memory.
    pub fn of(shape: Shape, words: Vec<u16>) -> PlainStarts<P>
        requires { vec_len words ≡ sector_words * shape }
        ensures kept { result ≡ record { sectors = shape; words = words.items } }
        ensures stands { StartsStandFor P (⟦<PlainStarts<P> as Starts<P>>⟧.sectors result) (⟦<PlainStarts<P> as Starts<P>>⟧.row result) words.items }
    {
        are_words(&words);
        PlainStarts { shape, words }
    }
}

impl<const P: usize> Starts<P> for PlainStarts<P> {
    ghost sectors = { λ starts. starts.sectors };

    ghost row = { λ starts a. parity_at P (per_column starts.sectors) starts.words a };

    fn shape(&self) -> Shape {
        self.shape
    }

    fn at_start(&self, _field: &Tables, a: u32) -> [u16; P] {
        sum_at(&self.words, a as usize, self.shape.per_column() as usize)
    }
}
