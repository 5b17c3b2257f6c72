// The words of an image that leave and enter where the columns of a rip begin a stride earlier or later.
ghost use Rattle.std.specs.Prelude.{◌≡◌, ℕ, ◌+◌, ◌*◌, ◌^◌, ◌<◌, ◌≤◌, ◌++◌, List, [], IfOk, length, slice_index, vec_len};
ghost use Rattle.rip_basics.specs.Disc.{sector_words};
ghost use Rattle.column_map.specs.Columns.{IsSectorCount, per_column, stride};
ghost use Rattle.offset_slide.specs.Edges.{EdgesStandFor, TakesPart};

use crate::STRIDE;
use column_map::Shape;
use rip_basics::Oom;
use std::alloc::Global;
use std::marker::Model;

/// The edges of an image of which a part has come: of its strides, each of 11,760 words, the first two, and those whose
/// numbers are the number of words of a column and the next. They are seen as the image's sectors, the number of words
/// that have come, and the words of the first two strides and of the other two.
#[derive(Drop)]
pub struct Edges {
    shape: Shape,
    // How many words have come.
    position: usize,
    front: Vec<u16>,
    back: Vec<u16>,
}

impl Model for Edges {
    ghost use Rattle.std.specs.Prelude.{vec_len};
    ghost use Rattle.offset_slide.specs.Edges.{AreEdges, KeptEdges};

    ghost Value = { KeptEdges };

    ghost view = { λ edges. record { sectors = edges.shape; position = edges.position; front = edges.front.items; back = edges.back.items } };

    ghost invariant = { λ edges. AreEdges edges.shape edges.position (vec_len edges.front) (vec_len edges.back) };
}

// Two strides of zeros.
fn two_strides(alloc: Global) -> Result<Vec<u16>, Oom>
    ensures { IfOk result (λ words. vec_len words ≡ 2 * stride) }
{
    Ok(vec![in alloc; 0u16; 2 * STRIDE]?)
}

// Takes words that stand in the image from `position` on into `kept`, which stands there from `first` on.
fn take_part(kept: &mut [u16], first: usize, position: usize, words: &[u16])
    requires kept { first + length kept.old < 2 ^ 63 }
    requires words { position + length words.now < 2 ^ 63 }
    ensures { TakesPart first position words.now kept.old kept.new }
{
    let from = first.max(position);
    let end = (first + kept.len()).min(position + words.len());
    if from < end {
        kept[from - first..end - first].copy_from_slice(&words[from - position..end - position]);
    }
}

impl Edges {
    /// The edges of an image of this shape, none of whose words has come, or Oom for want of memory.
    pub fn new(alloc: Global, shape: Shape) -> Result<Edges, Oom>
        ensures sectors { IfOk result (λ edges. edges.sectors ≡ shape) }
        ensures stands { IfOk result (λ edges. EdgesStandFor edges []) }
    {
        // With the call the check sees the bounds of the shape's sectors.
        let _ = shape.sectors();
        let front = two_strides(alloc)?;
        let back = two_strides(alloc)?;
        Ok(Edges {
            shape,
            position: 0,
            front,
            back,
        })
    }

    /// Takes the next words of the image in, of which there are no more in all than the image has. It takes no memory.
    pub fn absorb(&mut self, words: &[u16])
        requires { self.old.position + length words.now ≤ sector_words * self.old.sectors }
        ensures sectors { self.new.sectors ≡ self.old.sectors }
        ensures position { self.new.position ≡ self.old.position + length words.now }
        ensures stands { (y : List ℕ) → EdgesStandFor self.old y → EdgesStandFor self.new (y ++ words.now) }
    {
        let last = self.shape.per_column() as usize * STRIDE;
        take_part(&mut self.front, 0, self.position, words);
        take_part(&mut self.back, last, self.position, words);
        self.position += words.len();
    }

    /// The shape of the image.
    pub fn shape(&self) -> Shape
        ensures value { result ≡ self.now.sectors }
        ensures range { IsSectorCount self.now.sectors }
    {
        self.shape
    }

    /// Word `i` of the first two strides.
    pub fn front(&self, i: usize) -> u16
        requires { i < 2 * stride }
        ensures { result ≡ slice_index self.now.front i }
    {
        self.front[i]
    }

    /// Word `i` of the last two.
    pub fn back(&self, i: usize) -> u16
        requires { i < 2 * stride }
        ensures { result ≡ slice_index self.now.back i }
    {
        self.back[i]
    }
}
