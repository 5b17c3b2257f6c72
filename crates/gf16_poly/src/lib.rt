//! Shift registers over GF(2^16), and the polynomials that they stand for.
#![tactic(auto)]

ghost use Rattle.std.specs.Prelude.{◌≡◌, ℕ, ◌+◌, ◌<◌, ◌≤◌, ◌↔◌, IsTrue, slice_index};
ghost use Rattle.gf16_poly.specs.Register.{AllWords, Generates, discrepancy_at, times_at, value_at, with_one};

use gf16_field::{Gf, Tables, add};

/// A register of `len` coefficients: the polynomial `1 + coef[0] x + coef[1] x^2 + ..` of degree at most `len`.
/// Its coefficients past `len` are 0.
#[derive(Clone, Copy)]
pub struct Register<const P: usize> {
    pub len: usize,
    pub coef: [u16; P],
    ghost fits: { len ≤ P },
    ghost past: { (i : ℕ) → len ≤ i → slice_index coef i ≡ 0 },
}

/// The discrepancy at word `n`: by how much the register of the first `len` coefficients misses it.
pub fn discrepancy<const P: usize>(
    field: &Tables,
    coef: &[u16; P],
    len: usize,
    s: &[u16; P],
    n: usize,
) -> Gf
    requires long { len ≤ n }
    requires inside { n < P }
    ensures { result.0 ≡ discrepancy_at len (λ i. slice_index coef.now i) (λ i. slice_index s.now i) n }
{
    let mut sum = Gf(s[n]);
    for i in 0..len {
        sum = add(sum, field.mul(Gf(coef[i]), Gf(s[n - 1 - i])));
    }
    sum
}

/// Whether the register makes each word of `s` from its `len`-th on out of the `len` words before it.
pub fn generates<const P: usize>(field: &Tables, r: &Register<P>, s: &[u16; P]) -> bool
    ensures { IsTrue result ↔ Generates P r.now.len (λ i. slice_index r.now.coef i) (λ i. slice_index s.now i) }
{
    for n in r.len..P {
        if discrepancy(field, &r.coef, r.len, s, n).0 != 0 {
            return false;
        }
    }
    true
}

/// The value of the register's polynomial at `x`.
pub fn eval<const P: usize>(field: &Tables, r: &Register<P>, x: Gf) -> Gf
    ensures { result.0 ≡ value_at (r.now.len + 1) (with_one (λ i. slice_index r.now.coef i)) x.0 }
{
    let mut sum = Gf(1);
    let mut power = x;
    for i in 0..r.len {
        sum = add(sum, field.mul(Gf(r.coef[i]), power));
        power = field.mul(x, power);
    }
    sum
}

/// Each value of a slice of words is a word: a fact that proofs take from the type.
pub fn are_words(s: &[u16])
    ensures { AllWords (λ i. slice_index s.now i) }
{}

/// The first `P` coefficients of the product of `s[0] + s[1] x + ..` and the register's polynomial.
pub fn times<const P: usize>(field: &Tables, s: &[u16; P], r: &Register<P>) -> [u16; P]
    ensures { (n : ℕ) → n < P → slice_index result n ≡ times_at (with_one (λ i. slice_index r.now.coef i)) (λ i. slice_index s.now i) n }
{
    are_words(s);
    let mut product = *s;
    for n in 0..P {
        product[n] = discrepancy(field, &r.coef, n, s, n).0;
    }
    product
}
