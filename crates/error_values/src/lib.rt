//! One column decoded: the errors that made its syndromes.
#![tactic(auto)]

ghost use Rattle.std.specs.Prelude.{◌≡◌, ◌≢◌, ℕ, ◌+◌, ◌-◌, ◌<◌, ◌≤◌, ◌↔◌, IfSome, IsNone, IsTrue, length, slice_index};
ghost use Rattle.gf16_field.specs.Column.{column_sum, longest_column};
ghost use Rattle.gf16_field.specs.Gf16.{◌⊗◌};
ghost use Rattle.gf16_field.specs.Xor.{◌⊕◌};
ghost use Rattle.gf16_poly.specs.Register.{AllWords};
ghost use Rattle.error_locator.specs.Flips.{locator_of};
ghost use Rattle.error_locator.specs.Roots.{AreRoots};
ghost use Rattle.error_values.specs.Column.{apart};
ghost use Rattle.error_values.specs.Division.{dividend_at, divisor_at};
ghost use Rattle.error_values.specs.ErrorList.{IsErrorList};

use error_locator::{Places, locate, may_have_roots, roots_near};
use gf16_field::{Gf, Tables, add};
use gf16_poly::{Register, are_words};

/// Errors in a column: `count` places `k`, rising, each with the flip that was exclusive-ored into its word.
#[derive(Clone, Copy)]
pub struct Errors<const P: usize> {
    pub count: usize,
    pub k: [u16; P],
    pub flip: [u16; P],
    ghost fits: { count ≤ P },
}

/// The flip at the root with the locator `x`. The locators' polynomial is divided by `y + x`: the words, summed with
/// the quotient's coefficients, are the flip times the quotient's value at `x`, since all other flips go.
fn flip_at<const P: usize>(field: &Tables, r: &Register<P>, s: &[u16; P], x: Gf) -> Gf
    requires some { 0 < r.now.len }
    requires simple { divisor_at r.now.len (λ i. slice_index r.now.coef i) x.0 ≢ 0 }
    ensures { result.0 ⊗ divisor_at r.now.len (λ i. slice_index r.now.coef i) x.0 ≡ dividend_at r.now.len (λ i. slice_index r.now.coef i) (λ i. slice_index s.now i) x.0 }
{
    are_words(s);
    let last = r.len - 1;
    let mut quotient = Gf(1);
    let mut divisor = Gf(1);
    let mut dividend = Gf(s[last]);
    for i in 0..last {
        quotient = add(Gf(r.coef[i]), field.mul(x, quotient));
        divisor = add(field.mul(x, divisor), quotient);
        dividend = add(dividend, field.mul(quotient, Gf(s[last - 1 - i])));
    }
    field.mul(dividend, field.inverse_of(divisor))
}

/// The flip at each place.
fn flips<const P: usize>(
    field: &Tables,
    r: &Register<P>,
    s: &[u16; P],
    places: &Places<P>,
    c: u32,
) -> [u16; P]
    requires column { c ≤ longest_column }
    requires count { places.now.count ≡ r.now.len }
    requires roots { AreRoots r.now.len (λ i. slice_index r.now.coef i) c places.now.count (λ i. slice_index places.now.k i) }
    ensures { (i : ℕ) → i < places.now.count → slice_index result i ⊗ divisor_at r.now.len (λ i. slice_index r.now.coef i) (locator_of c (slice_index places.now.k i))
        ≡ dividend_at r.now.len (λ i. slice_index r.now.coef i) (λ i. slice_index s.now i) (locator_of c (slice_index places.now.k i)) }
{
    are_words(&r.coef);
    let mut flip = [0; P];
    for i in 0..places.count {
        let x = field.power(c - 1 - places.k[i] as u32);
        flip[i] = flip_at(field, r, s, x).0;
    }
    flip
}

/// False only where `decode_column` answers None for a column of any length: no list of at most `P / 2` errors has the
/// syndromes `s`. It looks at no place, and so is quick where there is none. It takes no memory.
pub fn may_decode<const P: usize>(field: &Tables, s: [u16; P]) -> bool
    requires { P ≤ 32 }
    ensures { (c e : ℕ) (k flip : ℕ → ℕ) → c ≤ 65535 → IsErrorList P c (λ i. slice_index s.entry i) e k flip → IsTrue result }
{
    let register = locate(field, s);
    are_words(&register.coef);
    may_have_roots(field, &register)
}

/// The list of at most `P / 2` errors in a column of `c` words whose syndromes are `s`: it is the only one, and None
/// exactly where there is none. It takes no memory.
pub fn decode_column<const P: usize>(field: &Tables, s: [u16; P], c: u32) -> Option<Errors<P>>
    requires size { P ≤ 32 }
    requires some { 0 < c }
    requires column { c ≤ longest_column }
    ensures found { IfSome result (λ errors. IsErrorList P c (λ i. slice_index s.entry i) errors.count (λ i. slice_index errors.k i) (λ i. slice_index errors.flip i)) }
    ensures only { IfSome result (λ errors. (e : ℕ) (k flip : ℕ → ℕ) → IsErrorList P c (λ i. slice_index s.entry i) e k flip
        → (errors.count ≡ e) × ((i : ℕ) → i < e → (slice_index errors.k i ≡ k i) × (slice_index errors.flip i ≡ flip i))) }
    ensures none { IsNone result ↔ ((e : ℕ) (k flip : ℕ → ℕ) → IsErrorList P c (λ i. slice_index s.entry i) e k flip → ⊥) }
{
    decode_column_near(field, s, c, &[0; P])
}

/// The same list as [`decode_column`] answers. It first looks at the places `near`, those of a neighbouring column's
/// errors, and beside them: where all errors stand there, it is quicker. It takes no memory.
pub fn decode_column_near<const P: usize>(
    field: &Tables,
    s: [u16; P],
    c: u32,
    near: &[u16; P],
) -> Option<Errors<P>>
    requires size { P ≤ 32 }
    requires some { 0 < c }
    requires column { c ≤ longest_column }
    ensures found { IfSome result (λ errors. IsErrorList P c (λ i. slice_index s.entry i) errors.count (λ i. slice_index errors.k i) (λ i. slice_index errors.flip i)) }
    ensures only { IfSome result (λ errors. (e : ℕ) (k flip : ℕ → ℕ) → IsErrorList P c (λ i. slice_index s.entry i) e k flip
        → (errors.count ≡ e) × ((i : ℕ) → i < e → (slice_index errors.k i ≡ k i) × (slice_index errors.flip i ≡ flip i))) }
    ensures none { IsNone result ↔ ((e : ℕ) (k flip : ℕ → ℕ) → IsErrorList P c (λ i. slice_index s.entry i) e k flip → ⊥) }
{
    are_words(&s);
    let register = locate(field, s);
    are_words(&register.coef);
    let places = roots_near(field, &register, c, near)?;
    let flip = flips(field, &register, &s, &places, c);
    are_words(&flip);
    let Places { count, k } = places;
    Some(Errors { count, k, flip })
}

/// The law of columns: two columns of words with the same `count` syndromes differ in no place, or in more than
/// `count` places.
pub fn laws()
    ensures { (count c : ℕ) (v w : ℕ → ℕ) → c ≤ 65535 → AllWords v → AllWords w → ((m : ℕ) → m < count → column_sum m c v ≡ column_sum m c w)
        → apart c v w ≤ count → (k : ℕ) → k < c → v k ≡ w k }
{}
