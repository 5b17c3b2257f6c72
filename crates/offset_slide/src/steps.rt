// Steps from the parity at a start to that at the start a stride later, and back.
ghost use Rattle.std.specs.Prelude.{◌≡◌, ℕ, ◌+◌, ◌-◌, ◌*◌, ◌≤◌, List, slice_index};
ghost use Rattle.column_map.specs.Columns.{per_column, stride};
ghost use Rattle.column_map.specs.Image.{AreWords};
ghost use Rattle.gf16_field.specs.Gf16.{alpha_power};
ghost use Rattle.syndrome_stream.specs.Parity.{parity_at};
ghost use Rattle.offset_slide.specs.Steps.{ArePowersOf, AreSteps, beta};

use column_map::Shape;
use gf16_field::{Gf, Tables, add, pow_alpha};

// α, and its inverse β.
const ALPHA: Gf = Gf(2);

const BETA: Gf = Gf(0x8805);

// The first `P` powers of a word.
fn powers<const P: usize>(field: &Tables, word: Gf) -> [u16; P]
    ensures { ArePowersOf P word.0 result }
{
    let mut powers = [0; P];
    let mut power = Gf(1);
    for m in 0..P {
        powers[m] = power.0;
        power = field.mul(word, power);
    }
    powers
}

// The weights of the first word of a column of an image of this shape: for each syndrome m, α^(m * (c - 1)).
fn first_weights<const P: usize>(field: &Tables, shape: &Shape) -> [u16; P]
    ensures powers { ArePowersOf P (alpha_power (per_column shape.now - 1)) result }
    ensures some { 1 ≤ per_column shape.now }
{
    powers(field, pow_alpha(shape.per_column() - 1))
}

// The row at the start a stride later, by the powers of α and the weights of a column's first word: the word `left`
// leaves the column, and `entered` enters it.
fn step_up<const P: usize>(
    field: &Tables,
    rise: &[u16; P],
    first: &[u16; P],
    regs: &[u16; P],
    left: u16,
    entered: u16,
) -> [u16; P]
    ensures { (c : ℕ) (y : List ℕ) (a : ℕ) → 1 ≤ c → ArePowersOf P 2 rise.now → ArePowersOf P (alpha_power (c - 1)) first.now → AreWords y
        → regs.now ≡ parity_at P c y a → left ≡ slice_index y a → entered ≡ slice_index y (a + c * stride)
        → result ≡ parity_at P c y (a + stride) }
{
    let mut row = *regs;
    for m in 0..P {
        let kept = add(Gf(regs[m]), field.mul(Gf(left), Gf(first[m])));
        row[m] = add(field.mul(Gf(rise[m]), kept), Gf(entered)).0;
    }
    row
}

// The row at the start a stride earlier, by the powers of β and the weights of a column's first word: the word `left`
// leaves the column, and `entered` enters it.
fn step_down<const P: usize>(
    field: &Tables,
    fall: &[u16; P],
    first: &[u16; P],
    regs: &[u16; P],
    left: u16,
    entered: u16,
) -> [u16; P]
    ensures { (c : ℕ) (y : List ℕ) (a : ℕ) → 1 ≤ c → ArePowersOf P beta fall.now → ArePowersOf P (alpha_power (c - 1)) first.now → AreWords y
        → regs.now ≡ parity_at P c y (a + stride) → left ≡ slice_index y (a + c * stride) → entered ≡ slice_index y a
        → result ≡ parity_at P c y a }
{
    let mut row = *regs;
    for m in 0..P {
        let kept = field.mul(Gf(fall[m]), add(Gf(regs[m]), Gf(left)));
        row[m] = add(kept, field.mul(Gf(entered), Gf(first[m]))).0;
    }
    row
}

/// The parity at the start that is a stride later than `a`, from `regs`, that at `a`: of an image of this shape, `left`
/// is the word at `a`, and `entered` the word that stands a stride past the last of the column there. It takes no memory.
pub fn up<const P: usize>(
    field: &Tables,
    shape: &Shape,
    regs: [u16; P],
    left: u16,
    entered: u16,
) -> [u16; P]
    ensures { (y : List ℕ) (a : ℕ) → AreWords y → regs.entry ≡ parity_at P (per_column shape.now) y a
        → left ≡ slice_index y a → entered ≡ slice_index y (a + per_column shape.now * stride)
        → result ≡ parity_at P (per_column shape.now) y (a + stride) }
{
    let rise = powers(field, ALPHA);
    let first = first_weights(field, shape);
    step_up(field, &rise, &first, &regs, left, entered)
}

/// The parity at the start `a`, from `regs`, that at the start a stride later: of an image of this shape, `left` is the
/// last word of the later column, and `entered` the word at `a`. It takes no memory.
pub fn down<const P: usize>(
    field: &Tables,
    shape: &Shape,
    regs: [u16; P],
    left: u16,
    entered: u16,
) -> [u16; P]
    ensures { (y : List ℕ) (a : ℕ) → AreWords y → regs.entry ≡ parity_at P (per_column shape.now) y (a + stride)
        → left ≡ slice_index y (a + per_column shape.now * stride) → entered ≡ slice_index y a
        → result ≡ parity_at P (per_column shape.now) y a }
{
    let fall = powers(field, BETA);
    let first = first_weights(field, shape);
    step_down(field, &fall, &first, &regs, left, entered)
}

// The factors of steps, made once for many.
#[derive(Drop)]
pub struct Steps<const P: usize> {
    rise: [u16; P],
    fall: [u16; P],
    first: [u16; P],
}

impl<const P: usize> Steps<P> {
    // The factors for columns of an image of this shape.
    pub fn of(field: &Tables, shape: &Shape) -> Steps<P>
        ensures { AreSteps P (per_column shape.now) result.rise result.fall result.first }
    {
        Steps {
            rise: powers(field, ALPHA),
            fall: powers(field, BETA),
            first: first_weights(field, shape),
        }
    }

    // The row at the start a stride later, as `step_up` answers it.
    pub fn up(&self, field: &Tables, regs: &[u16; P], left: u16, entered: u16) -> [u16; P]
        ensures { (c : ℕ) (y : List ℕ) (a : ℕ) → 1 ≤ c → AreSteps P c self.now.rise self.now.fall self.now.first → AreWords y
            → regs.now ≡ parity_at P c y a → left ≡ slice_index y a → entered ≡ slice_index y (a + c * stride)
            → result ≡ parity_at P c y (a + stride) }
    {
        step_up(field, &self.rise, &self.first, regs, left, entered)
    }

    // The row at the start a stride earlier, as `step_down` answers it.
    pub fn down(&self, field: &Tables, regs: &[u16; P], left: u16, entered: u16) -> [u16; P]
        ensures { (c : ℕ) (y : List ℕ) (a : ℕ) → 1 ≤ c → AreSteps P c self.now.rise self.now.fall self.now.first → AreWords y
            → regs.now ≡ parity_at P c y (a + stride) → left ≡ slice_index y (a + c * stride) → entered ≡ slice_index y a
            → result ≡ parity_at P c y a }
    {
        step_down(field, &self.fall, &self.first, regs, left, entered)
    }
}
