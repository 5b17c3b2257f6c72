// Columns that were decoded, each kept with its errors, so that one that differs alike needn't be decoded again.
ghost use Rattle.std.specs.Prelude.{◌≡◌, ℕ, ◌<◌, ◌≤◌, IfSome, IsNone, slice_index, vec_len};
ghost use Rattle.gf16_field.specs.Column.{longest_column};
ghost use Rattle.column_map.specs.Columns.{stride};
ghost use Rattle.error_values.specs.ErrorList.{IsErrorList};

use column_map::STRIDE;
use error_values::{Errors, decode_column_near};
use gf16_field::Tables;
use rip_basics::Oom;
use std::alloc::Global;

// The errors of a column of `c` words whose row and the stored one have this exclusive or.
#[derive(Clone, Copy)]
struct Decoded<const P: usize> {
    c: u32,
    sum: [u16; P],
    errors: Errors<P>,
    ghost list: { IsErrorList P c (λ m. slice_index sum m) errors.count (λ i. slice_index errors.k i) (λ i. slice_index errors.flip i) },
}

// No errors, of a column whose two rows are one.
fn no_errors<const P: usize>() -> Decoded<P>
    requires { P ≤ 32 }
{
    let zeros = [0; P];
    let errors = Errors {
        count: 0,
        k: zeros,
        flip: zeros,
    };
    Decoded {
        c: 1,
        sum: zeros,
        errors,
    }
}

/// What was decoded last for each column of an offset, in a slot by the start of the column. At the next offset the
/// columns begin two words on, so a slot serves again where words and parity repeat, as in silence; and a second look at
/// one offset finds all.
#[derive(Drop)]
pub struct Kept<const P: usize> {
    slots: Vec<Decoded<P>>,
    ghost some: { vec_len slots ≡ stride },
}

impl<const P: usize> Kept<P> {
    /// Nothing that was decoded yet. `Oom` where memory is refused.
    pub fn new(alloc: Global) -> Result<Kept<P>, Oom>
        requires { P ≤ 32 }
    {
        let slots = vec![in alloc; no_errors::<P>(); STRIDE as usize]?;
        Ok(Kept { slots })
    }

    /// The list of errors of a column that begins at the start `a`, as [`decode_column_near`] answers it. It takes no
    /// memory.
    pub fn decode(
        &mut self,
        field: &Tables,
        a: u32,
        sum: [u16; P],
        c: u32,
        near: &[u16; P],
    ) -> Option<Errors<P>>
        requires size { P ≤ 32 }
        requires some { 0 < c }
        requires column { c ≤ longest_column }
        ensures found { IfSome result (λ errors. IsErrorList P c (λ i. slice_index sum.entry i) errors.count (λ i. slice_index errors.k i) (λ i. slice_index errors.flip i)) }
        ensures none { IsNone result → (e : ℕ) (k flip : ℕ → ℕ) → IsErrorList P c (λ i. slice_index sum.entry i) e k flip → ⊥ }
    {
        let slot = (a % STRIDE) as usize;
        let known = self.slots[slot];
        if known.c == c && known.sum == sum {
            return Some(known.errors);
        }
        let errors = decode_column_near(field, sum, c, near)?;
        self.slots[slot] = Decoded { c, sum, errors };
        Some(self.slots[slot].errors)
    }
}
