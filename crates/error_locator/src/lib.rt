//! The shortest register that generates syndromes, and the places that it tells.
#![tactic(auto)]

mod likely;
mod splitting;

ghost use Rattle.std.specs.Prelude.{◌≡◌, ◌≢◌, ℕ, ◌+◌, ◌<◌, ◌≤◌, ◌↔◌, ◌⊎◌, false, IfSome, IsNone, IsTrue, slice_index};
ghost use Rattle.gf16_field.specs.Xor.{◌⊕◌, xor_below};
ghost use Rattle.gf16_field.specs.Column.{longest_column};
ghost use Rattle.gf16_field.specs.Gf16.{◌⊗◌, alpha_power};
ghost use Rattle.gf16_poly.specs.Register.{AllWords, Generates, locator, with_one};
ghost use Rattle.error_locator.specs.Flips.{AreFlips, HaveSyndromes, locator_of};
ghost use Rattle.error_locator.specs.Roots.{AreRoots, HasAllRoots, IsRoot};
ghost use Rattle.error_locator.specs.Search.{IsSearch, adjusted, shifted};
ghost use Rattle.error_locator.specs.Shortest.{IsShortest};
ghost use Rattle.error_locator.specs.Walk.{AreTerms, inverse_at};

use gf16_field::{Gf, Tables, add, double, pow_alpha};
use gf16_poly::{Register, are_words, discrepancy};
use likely::{beside, likely_roots};
use splitting::may_split;

/// Coefficient `i` of an older register, shifted and times a factor.
fn term<const P: usize>(field: &Tables, old: &[u16; P], shift: usize, factor: Gf, i: usize) -> Gf
    requires { i < P }
    ensures { result.0 ≡ shifted shift factor.0 (λ i. slice_index old.now i) i }
{
    if i + 1 < shift {
        Gf(0)
    } else if i + 1 == shift {
        factor
    } else {
        field.mul(factor, Gf(old[i - shift]))
    }
}

/// The coefficients with those of an older register, shifted and times a factor, added.
fn adjust<const P: usize>(
    field: &Tables,
    coef: &[u16; P],
    old: &[u16; P],
    shift: usize,
    factor: Gf,
) -> [u16; P]
    ensures inside { (i : ℕ) → i < P → slice_index result i ≡ adjusted shift factor.0 (λ i. slice_index coef.now i) (λ i. slice_index old.now i) i }
    ensures outside { (i : ℕ) → P ≤ i → slice_index result i ≡ 0 }
{
    let mut next = *coef;
    for i in 0..P {
        next[i] = add(Gf(coef[i]), term(field, old, shift, factor, i)).0;
    }
    next
}

/// Where the search for the shortest register stands: the shortest one for the words so far, and the last shorter
/// one, which missed a word by `old_miss`, `shift` words ago.
#[derive(Clone, Copy)]
struct Search<const P: usize> {
    len: usize,
    coef: [u16; P],
    old_len: usize,
    old: [u16; P],
    old_miss: Gf,
    shift: usize,
}

/// One word more.
fn step<const P: usize>(field: &Tables, search: Search<P>, s: &[u16; P], n: usize) -> Search<P>
    requires inside { n < P }
    requires now { IsSearch n search.len search.old_len search.shift search.old_miss.0 (λ i. slice_index search.coef i) (λ i. slice_index search.old i) (λ i. slice_index s.now i) }
    ensures { IsSearch (n + 1) result.len result.old_len result.shift result.old_miss.0 (λ i. slice_index result.coef i) (λ i. slice_index result.old i) (λ i. slice_index s.now i) }
{
    let Search {
        len,
        coef,
        old_len,
        old,
        old_miss,
        shift,
    } = search;
    let missed = discrepancy(field, &coef, len, s, n);
    if missed.0 == 0 {
        return Search {
            len,
            coef,
            old_len,
            old,
            old_miss,
            shift: shift + 1,
        };
    }
    let factor = field.mul(missed, field.inverse_of(old_miss));
    let next = adjust(field, &coef, &old, shift, factor);
    if 2 * len <= n {
        Search {
            len: n + 1 - len,
            coef: next,
            old_len: len,
            old: coef,
            old_miss: missed,
            shift: 1,
        }
    } else {
        Search {
            len,
            coef: next,
            old_len,
            old,
            old_miss,
            shift: shift + 1,
        }
    }
}

/// The shortest register that generates `s`, and the only one of its length where twice that is at most `P`.
/// Where `s` are the syndromes of at most `P / 2` flips in a column of `c` words, it has one coefficient for each
/// flip, and its polynomial is the product of `1 + α^(c - 1 - k) x` over their places `k`. It takes no memory.
pub fn locate<const P: usize>(field: &Tables, s: [u16; P]) -> Register<P>
    requires { P ≤ 32 }
    ensures shortest { IsShortest P result.len (λ i. slice_index result.coef i) (λ i. slice_index s.entry i) }
    ensures only { result.len + result.len ≤ P → (d : ℕ → ℕ) → AllWords d → Generates P result.len d (λ i. slice_index s.entry i)
        → (i : ℕ) → i < result.len → d i ≡ slice_index result.coef i }
    ensures flips { (c e : ℕ) (k flip : ℕ → ℕ) → c ≤ 65535 → e + e ≤ P → AreFlips c e k flip → HaveSyndromes P c e k flip (λ i. slice_index s.entry i)
        → (result.len ≡ e) × ((i : ℕ) → with_one (λ i. slice_index result.coef i) i ≡ locator e (λ i. locator_of c (k i)) i) }
{
    are_words(&s);
    let coef = [0; P];
    let old = [0; P];
    let mut search = Search {
        len: 0,
        coef,
        old_len: 0,
        old,
        old_miss: Gf(1),
        shift: 1,
    };
    for n in 0..P {
        search = step(field, search, &s, n);
    }
    let Search { len, coef, .. } = search;
    Register { len, coef }
}

/// Places in a column: the first `count` entries of `k`, which rise.
#[derive(Clone, Copy)]
pub struct Places<const P: usize> {
    pub count: usize,
    pub k: [u16; P],
    ghost fits: { count ≤ P },
}

/// The terms of the register's polynomial at `y`, but for its 1.
fn terms_at<const P: usize>(field: &Tables, coef: &[u16; P], len: usize, y: Gf) -> [u16; P]
    requires { len ≤ P }
    ensures { AreTerms len (λ i. slice_index coef.now i) y.0 (λ i. slice_index result i) }
{
    let mut terms = *coef;
    let mut power = y;
    for i in 0..len {
        terms[i] = field.mul(Gf(coef[i]), power).0;
        power = field.mul(y, power);
    }
    terms
}

/// Takes the terms to the next place: each times its own power of α.
fn advance<const P: usize>(field: &Tables, terms: &mut [u16; P], len: usize)
    requires { len ≤ P }
    ensures { (i : ℕ) → i < len → slice_index terms.new i ≡ slice_index terms.old i ⊗ alpha_power (i + 1) }
{
    let mut alpha = Gf(2);
    for i in 0..len {
        terms[i] = field.mul(Gf(terms[i]), alpha).0;
        alpha = double(alpha);
    }
}

/// 1 and the first `len` terms, added.
fn sum<const P: usize>(terms: &[u16; P], len: usize) -> Gf
    requires { len ≤ P }
    ensures { result.0 ≡ 1 ⊕ xor_below len (λ i. slice_index terms.now i) }
{
    let mut sum = Gf(1);
    for i in 0..len {
        sum = add(sum, Gf(terms[i]));
    }
    sum
}

/// The first root from `place` on, or `c`, and the terms there.
fn next_root<const P: usize>(
    field: &Tables,
    r: &Register<P>,
    c: u32,
    terms: &mut [u16; P],
    place: u32,
) -> u32
    requires column { c ≤ longest_column }
    requires inside { place ≤ c }
    requires terms { AreTerms r.now.len (λ i. slice_index r.now.coef i) (inverse_at c place) (λ i. slice_index terms.old i) }
    ensures inside { result ≤ c }
    ensures later { place ≤ result }
    ensures none { (q : ℕ) → place ≤ q → q < result → IsRoot r.now.len (λ i. slice_index r.now.coef i) c q → ⊥ }
    ensures root { result < c → IsRoot r.now.len (λ i. slice_index r.now.coef i) c result }
    ensures terms { AreTerms r.now.len (λ i. slice_index r.now.coef i) (inverse_at c result) (λ i. slice_index terms.new i) }
{
    are_words(&r.coef);
    let mut place = place;
    while place < c && sum(terms, r.len).0 != 0 {
        advance(field, terms, r.len);
        place += 1;
    }
    place
}

/// False only where `roots` answers None for a column of any length: the register is longer than `P / 2`, or its
/// polynomial has fewer roots than its length anywhere in the field. The places aren't walked. It takes no memory.
pub fn may_have_roots<const P: usize>(field: &Tables, r: &Register<P>) -> bool
    requires { P ≤ 32 }
    ensures half { IsTrue result → r.now.len + r.now.len ≤ P }
    ensures fewer { result ≡ false → (P < r.now.len + r.now.len) ⊎ ((c n : ℕ) (k : ℕ → ℕ) → c ≤ 65535 → AreRoots r.now.len (λ i. slice_index r.now.coef i) c n k → n < r.now.len) }
{
    if 2 * r.len > P {
        return false;
    }
    are_words(&r.coef);
    r.len < 2 || may_split(field, r)
}

/// Whether a place is a root: the polynomial's value there.
fn is_root<const P: usize>(field: &Tables, r: &Register<P>, c: u32, place: u32) -> bool
    requires column { c ≤ longest_column }
    requires inside { place < c }
    ensures { IsTrue result → IsRoot r.now.len (λ i. slice_index r.now.coef i) c place }
{
    are_words(&r.coef);
    let terms = terms_at(field, &r.coef, r.len, field.power(65_536 - c + place));
    sum(&terms, r.len).0 == 0
}

/// The roots among some places, if there are as many as the register is long. Places that don't rise are passed over.
fn roots_among<const P: usize>(
    field: &Tables,
    r: &Register<P>,
    c: u32,
    likely: &Places<P>,
) -> Option<Places<P>>
    requires column { c ≤ longest_column }
    ensures count { IfSome result (λ places. places.count ≡ r.now.len) }
    ensures roots { IfSome result (λ places. AreRoots r.now.len (λ i. slice_index r.now.coef i) c places.count (λ i. slice_index places.k i)) }
{
    let mut k = [0; P];
    let mut count = 0;
    let mut next = 0;
    for i in 0..likely.count {
        let place = likely.k[i] as u32;
        if count == r.len || place < next || c <= place || !is_root(field, r, c, place) {
            continue;
        }
        k[count] = place as u16;
        count += 1;
        next = place + 1;
    }
    if count == r.len {
        Some(Places { count, k })
    } else {
        None
    }
}

// `roots`, by a look at each place of the column.
fn walk_roots<const P: usize>(field: &Tables, r: &Register<P>, c: u32) -> Option<Places<P>>
    requires size { P ≤ 32 }
    requires some { 0 < c }
    requires column { c ≤ longest_column }
    ensures count { IfSome result (λ places. places.count ≡ r.now.len) }
    ensures half { IfSome result (λ places. r.now.len + r.now.len ≤ P) }
    ensures roots { IfSome result (λ places. AreRoots r.now.len (λ i. slice_index r.now.coef i) c places.count (λ i. slice_index places.k i)) }
    ensures all { IfSome result (λ places. HasAllRoots r.now.len (λ i. slice_index r.now.coef i) c places.count (λ i. slice_index places.k i)) }
    ensures none { IsNone result ↔ ((P < r.now.len + r.now.len) ⊎ ((n : ℕ) (k : ℕ → ℕ) → AreRoots r.now.len (λ i. slice_index r.now.coef i) c n k → n < r.now.len)) }
{
    if !may_have_roots(field, r) {
        return None;
    }
    are_words(&r.coef);
    let mut k = [0; P];
    let mut terms = terms_at(field, &r.coef, r.len, pow_alpha(65_536 - c));
    let mut count = 0;
    let mut place = 0;
    while count < r.len {
        place = next_root(field, r, c, &mut terms, place);
        if place == c {
            return None;
        }
        k[count] = place as u16;
        count += 1;
        advance(field, &mut terms, r.len);
        place += 1;
    }
    Some(Places { count, k })
}

/// The places of a column of `c` words, rising, at which the register's polynomial is 0: those `k` where it is 0 at
/// the inverse of `α^(c - 1 - k)`. None exactly where there are fewer than the register's length, or where that is
/// above `P / 2`. It takes no memory.
pub fn roots<const P: usize>(field: &Tables, r: &Register<P>, c: u32) -> Option<Places<P>>
    requires size { P ≤ 32 }
    requires some { 0 < c }
    requires column { c ≤ longest_column }
    ensures count { IfSome result (λ places. places.count ≡ r.now.len) }
    ensures half { IfSome result (λ places. r.now.len + r.now.len ≤ P) }
    ensures roots { IfSome result (λ places. AreRoots r.now.len (λ i. slice_index r.now.coef i) c places.count (λ i. slice_index places.k i)) }
    ensures all { IfSome result (λ places. HasAllRoots r.now.len (λ i. slice_index r.now.coef i) c places.count (λ i. slice_index places.k i)) }
    ensures none { IsNone result ↔ ((P < r.now.len + r.now.len) ⊎ ((n : ℕ) (k : ℕ → ℕ) → AreRoots r.now.len (λ i. slice_index r.now.coef i) c n k → n < r.now.len)) }
{
    if P < 2 * r.len {
        return None;
    }
    are_words(&r.coef);
    let likely = likely_roots(field, r, c);
    match roots_among(field, r, c, &likely) {
        Some(places) => Some(places),
        None => walk_roots(field, r, c),
    }
}

/// The same places as [`roots`] answers. It first looks at the places `near`, those of a neighbouring column's errors,
/// and beside them: where all roots stand there, it is quicker.
pub fn roots_near<const P: usize>(
    field: &Tables,
    r: &Register<P>,
    c: u32,
    near: &[u16; P],
) -> Option<Places<P>>
    requires size { P ≤ 32 }
    requires some { 0 < c }
    requires column { c ≤ longest_column }
    ensures count { IfSome result (λ places. places.count ≡ r.now.len) }
    ensures half { IfSome result (λ places. r.now.len + r.now.len ≤ P) }
    ensures roots { IfSome result (λ places. AreRoots r.now.len (λ i. slice_index r.now.coef i) c places.count (λ i. slice_index places.k i)) }
    ensures all { IfSome result (λ places. HasAllRoots r.now.len (λ i. slice_index r.now.coef i) c places.count (λ i. slice_index places.k i)) }
    ensures none { IsNone result ↔ ((P < r.now.len + r.now.len) ⊎ ((n : ℕ) (k : ℕ → ℕ) → AreRoots r.now.len (λ i. slice_index r.now.coef i) c n k → n < r.now.len)) }
{
    if 2 * r.len > P {
        return None;
    }
    are_words(&r.coef);
    match roots_among(field, r, c, &beside(near)) {
        Some(places) => Some(places),
        None => roots(field, r, c),
    }
}
