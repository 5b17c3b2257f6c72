// The size of an image, and the places of its columns' words.
ghost use Rattle.std.specs.Prelude.{◌≡◌, ℕ, ◌+◌, ◌-◌, ◌*◌, ◌/◌, ◌<◌, ◌≤◌, ◌↔◌, List, IfSome, IsNone};
ghost use Rattle.rip_basics.specs.Disc.{most_sectors};
ghost use Rattle.column_map.specs.Columns.{IsSectorCount, IsOffset, IsWordAt, IsCovered, per_column, place, stride};

use std::marker::Model;

/// A stride: the words of ten sectors, and so many columns.
pub const STRIDE: u32 = 11_760;

/// The size of an image that can be registered, seen as its number of sectors, which is from 30 to 445,500.
///
/// After its first ten sectors the image has `c` more strides of 11,760 words, where `c` is a tenth of its sectors
/// less 2. Column `j` has word `j` of each of them, so `c` words. The words of all columns are covered.
#[derive(Clone, Copy, Debug, PartialEq, Eq)]
pub struct Shape {
    sectors: u32,
}

impl Model for Shape {
    ghost use Rattle.std.specs.Prelude.{ℕ};
    ghost use Rattle.column_map.specs.Columns.{IsSectorCount};

    ghost Value = { ℕ };

    ghost view = { λ shape. shape.sectors };

    ghost invariant = { λ shape. IsSectorCount shape.sectors };

    ghost inverse = { λ sectors. record { sectors = sectors } };
}

impl Shape {
    /// The shape of an image of so many sectors, or None exactly where there are fewer than 30.
    pub fn of(sectors: u32) -> Option<Shape>
        requires { sectors ≤ most_sectors }
        ensures none { IsNone result ↔ (sectors < 30) }
        ensures shape { IfSome result (λ shape. shape ≡ sectors) }
    {
        if sectors < 30 {
            None
        } else {
            Some(Shape { sectors })
        }
    }

    /// The number of sectors.
    pub fn sectors(&self) -> u32
        ensures value { result ≡ self.now }
        ensures range { IsSectorCount result }
    {
        self.sectors
    }

    /// The number of words of each column.
    pub fn per_column(&self) -> u32
        ensures value { result ≡ per_column self.now }
        ensures range { (1 ≤ result) × (result ≤ per_column most_sectors) }
    {
        self.sectors / 10 - 2
    }

    /// Where a rip at the offset `d` has word `k` of column `j`, counted in words.
    pub fn place(&self, d: i32, j: u32, k: u32) -> u32
        requires offset { IsOffset d }
        requires column { j < stride }
        requires number { k < per_column self.now }
        ensures value { result ≡ place d j k }
        ensures inside { (2 ≤ result) × (result + 3 ≤ (per_column self.now + 2) * stride) }
    {
        // With the field the check sees its bounds.
        let _ = &self.sectors;
        ((STRIDE + k * STRIDE + j) as i32 + 2 * d) as u32
    }

    /// Where a rip at the offset `d` has the first word of column `j`.
    pub fn start_of(&self, d: i32, j: u32) -> u32
        requires offset { IsOffset d }
        requires column { j < stride }
        ensures value { result ≡ place d j 0 }
        ensures inside { (2 ≤ result) × (result + 3 ≤ 3 * stride) }
    {
        // With the field the check sees its bounds.
        let _ = &self.sectors;
        self.place(d, j, 0)
    }

    /// The column and the number in it of the word that a rip at the offset `d` has at this place,
    /// or None exactly where no column has a word there.
    pub fn covered(&self, d: i32, at: u32) -> Option<(u32, u32)>
        requires { IsOffset d }
        ensures none { IsNone result ↔ ¬ IsCovered (per_column self.now) d at }
        ensures here { IfSome result (λ found. IsWordAt (per_column self.now) d at found.0 found.1) }
        ensures back { (j k : ℕ) → IsWordAt (per_column self.now) d at j k → result ≡ Some (j, k) }
    {
        let first = self.start_of(d, 0);
        if at < first {
            return None;
        }
        let past = at - first;
        let k = past / STRIDE;
        if k < self.per_column() {
            Some((past % STRIDE, k))
        } else {
            None
        }
    }
}
