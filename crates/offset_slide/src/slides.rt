// The parity at every start, kept.
ghost use Rattle.std.specs.Prelude.{◌≡◌, ℕ, ◌+◌, ◌*◌, ◌<◌, ◌≤◌, List, IfOk, slice_index};
ghost use Rattle.column_map.specs.Columns.{IsSectorCount, per_column, stride};
ghost use Rattle.syndrome_stream.specs.Parity.{parity_at};
ghost use Rattle.syndrome_stream.specs.Starts.{StartsStandFor};
ghost use Rattle.offset_slide.specs.Slides.{TableAndEdgesStandFor, row_at_start};
ghost use Rattle.offset_slide.specs.Steps.{AreSteps};

use crate::STRIDE;
use crate::edges::Edges;
use crate::steps::Steps;
use column_map::Shape;
use gf16_field::Tables;
use rip_basics::Oom;
use std::alloc::Global;
use std::marker::Model;
use syndrome_stream::{Starts, Table};

// The first start, and one past the last.
const FIRST: usize = 2;

const PAST: usize = 35_278;

/// Starts that keep the row of each start, from 2 to 35,277. They are seen as the image's sectors and these rows.
#[derive(Drop)]
pub struct Slides<const P: usize> {
    shape: Shape,
    rows: Vec<[u16; P]>,
}

impl<const P: usize> Model for Slides<P> {
    ghost use Rattle.std.specs.Prelude.{◌≡◌, vec_len};
    ghost use Rattle.offset_slide.specs.Slides.{KeptRows};

    ghost Value = { KeptRows };

    ghost view = { λ slides. record { sectors = slides.shape; rows = slides.rows.items } };

    ghost invariant = { λ slides. vec_len slides.rows ≡ 35276 };
}

// The row at a start: that of a column, or one step from it.
fn row_at<const P: usize>(
    field: &Tables,
    steps: &Steps<P>,
    table: &Table<P>,
    edges: &Edges,
    a: usize,
) -> [u16; P]
    requires size { P ≤ 32 }
    requires first { 2 ≤ a }
    requires last { a + 3 ≤ 3 * stride }
    requires sectors { IsSectorCount edges.now.sectors }
    requires steps { AreSteps P (per_column edges.now.sectors) steps.now.rise steps.now.fall steps.now.first }
    ensures { (y : List ℕ) → TableAndEdgesStandFor P table.now edges.now y → result ≡ parity_at P (per_column edges.now.sectors) y a }
{
    if a < STRIDE {
        steps.down(field, &table.row(a as u32), edges.back(a), edges.front(a))
    } else if a < 2 * STRIDE {
        table.row((a - STRIDE) as u32)
    } else {
        let from = a - STRIDE;
        steps.up(
            field,
            &table.row((from - STRIDE) as u32),
            edges.front(from),
            edges.back(from),
        )
    }
}

impl<const P: usize> Slides<P> {
    /// The starts of an image, from its parity and its edges, or Oom for want of memory. Where both stand for one whole
    /// image, the starts stand for it. All their memory is taken here.
    pub fn new(
        alloc: Global,
        field: &Tables,
        table: Table<P>,
        edges: Edges,
    ) -> Result<Slides<P>, Oom>
        requires { P ≤ 32 }
        ensures sectors { IfOk result (λ slides. slides.sectors ≡ edges.sectors) }
        ensures stands { IfOk result (λ slides. (y : List ℕ) → TableAndEdgesStandFor P table.entry edges y
            → StartsStandFor P (⟦<Slides<P> as Starts<P>>⟧.sectors slides) (⟦<Slides<P> as Starts<P>>⟧.row slides) y) }
    {
        let shape = edges.shape();
        let steps = Steps::of(field, &shape);
        let mut rows = Vec::with_capacity(alloc, PAST - FIRST)?;
        for a in FIRST..PAST {
            rows.push_reserved(row_at(field, &steps, &table, &edges, a));
        }
        Ok(Slides { shape, rows })
    }
}

impl<const P: usize> Starts<P> for Slides<P> {
    ghost use Rattle.offset_slide.specs.Slides.{row_at_start};

    ghost sectors = { λ slides. slides.sectors };

    ghost row = { λ slides a. row_at_start slides a };

    fn shape(&self) -> Shape {
        self.shape
    }

    fn at_start(&self, _field: &Tables, a: u32) -> [u16; P] {
        self.rows[a as usize - FIRST]
    }
}
