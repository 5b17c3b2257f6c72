// A run of words folded into the sums of its columns, power by power.
ghost use Rattle.std.specs.Prelude.{◌≡◌, ℕ, ◌+◌, ◌*◌, ◌^◌, ◌<◌, ◌≤◌, EachIndex, length, map, slice_index};
ghost use Rattle.std.specs.Simd.Lanes.{zip2};
ghost use Rattle.column_map.specs.Columns.{stride};
ghost use Rattle.syndrome_stream.specs.Registers.{FoldsRun, TakesRun};
ghost use Rattle.gf16_field.specs.Xor.{◌⊕◌};
ghost use Rattle.gf16_field.specs.Gf16.{◌⊗◌, alpha_power};

use crate::table::STRIDE;
use gf16_field::{Gf, add, times_lanes, times_power};
use std::simd::prelude::*;

// Each lane of `sums` times the m-th power of α, with the lane of `words` added.
fn fold_lanes(sums: u16x32, words: u16x32, m: u16) -> u16x32
    requires { m < 32 }
    ensures { result ≡ zip2 (λ a b. alpha_power m ⊗ a ⊕ b) sums words }
{
    times_lanes(sums, m) ^ words
}

// `fold_stride` for a power that the compiler knows, so that each shift is by a constant.
fn fold_by<const M: u16>(regs: &mut [u16], words: &[u16])
    requires power { M < 32 }
    requires long { length regs.old ≡ length words.now }
    ensures { EachIndex regs.new (λ k. slice_index regs.new k ≡ alpha_power M ⊗ slice_index regs.old k ⊕ slice_index words.now k) }
{
    let count = regs.len();
    let mut i = 0;
    'vectors: while count - i >= 32 {
        let sums = u16x32::from_slice(&regs[i..]);
        let folded = fold_lanes(sums, u16x32::from_slice(&words[i..]), M);
        folded.copy_to_slice(&mut regs[i..]);
        i += 32;
    }
    'rest: while i < count {
        regs[i] = add(times_power(Gf(regs[i]), M), Gf(words[i])).0;
        i += 1;
    }
}

/// One more word for each of some columns: each word of `regs`, the columns' syndromes `m`, times the m-th power of α,
/// with the word of `words` at its place added. It takes no memory.
pub fn fold_stride(regs: &mut [u16], words: &[u16], m: u32)
    requires power { m < 32 }
    requires long { length regs.old ≡ length words.now }
    ensures { EachIndex regs.new (λ k. slice_index regs.new k ≡ alpha_power m ⊗ slice_index regs.old k ⊕ slice_index words.now k) }
{
    match m {
        0 => fold_by::<0>(regs, words),
        1 => fold_by::<1>(regs, words),
        2 => fold_by::<2>(regs, words),
        3 => fold_by::<3>(regs, words),
        4 => fold_by::<4>(regs, words),
        5 => fold_by::<5>(regs, words),
        6 => fold_by::<6>(regs, words),
        7 => fold_by::<7>(regs, words),
        8 => fold_by::<8>(regs, words),
        9 => fold_by::<9>(regs, words),
        10 => fold_by::<10>(regs, words),
        11 => fold_by::<11>(regs, words),
        12 => fold_by::<12>(regs, words),
        13 => fold_by::<13>(regs, words),
        14 => fold_by::<14>(regs, words),
        15 => fold_by::<15>(regs, words),
        16 => fold_by::<16>(regs, words),
        17 => fold_by::<17>(regs, words),
        18 => fold_by::<18>(regs, words),
        19 => fold_by::<19>(regs, words),
        20 => fold_by::<20>(regs, words),
        21 => fold_by::<21>(regs, words),
        22 => fold_by::<22>(regs, words),
        23 => fold_by::<23>(regs, words),
        24 => fold_by::<24>(regs, words),
        25 => fold_by::<25>(regs, words),
        26 => fold_by::<26>(regs, words),
        27 => fold_by::<27>(regs, words),
        28 => fold_by::<28>(regs, words),
        29 => fold_by::<29>(regs, words),
        30 => fold_by::<30>(regs, words),
        _ => fold_by::<31>(regs, words),
    }
}

// The run folded into the sums from `at` on.
fn fold_at(sums: &mut [u16], at: usize, run: &[u16], m: u32)
    requires power { m < 32 }
    requires inside { at + length run.now ≤ length sums.old }
    ensures long { length sums.new ≡ length sums.old }
    ensures before { (k : ℕ) → k < at → slice_index sums.new k ≡ slice_index sums.old k }
    ensures folded { (k : ℕ) → k < length run.now → slice_index sums.new (at + k) ≡ alpha_power m ⊗ slice_index sums.old (at + k) ⊕ slice_index run.now k }
    ensures after { (k : ℕ) → at + length run.now ≤ k → slice_index sums.new k ≡ slice_index sums.old k }
{
    fold_stride(&mut sums[at..at + run.len()], run, m);
}

// The run folded into the sums of `count` powers, a stride for each, from `column` on.
fn fold_run(sums: &mut [u16], count: usize, column: usize, run: &[u16])
    requires size { count ≤ 32 }
    requires inside { column + length run.now ≤ stride }
    requires long { length sums.old ≡ count * stride }
    ensures { FoldsRun count column run.now sums.old sums.new }
{
    for m in 0..count {
        fold_at(sums, m * STRIDE + column, run, m as u32);
    }
}

/// Takes in words of an image that stand one after another in a stride, from `column` on: into the sums of their
/// columns, where `passed` strides stand before them and it is one of the `per_column` strides that have columns.
pub fn take_run(
    sums: &mut [u16],
    count: usize,
    per_column: u32,
    passed: u32,
    column: usize,
    run: &[u16],
)
    requires size { count ≤ 32 }
    requires inside { column + length run.now ≤ stride }
    requires long { length sums.old ≡ count * stride }
    ensures long { length sums.new ≡ length sums.old }
    ensures takes { TakesRun count per_column passed column run.now sums.old sums.new }
{
    if 1 <= passed && passed <= per_column {
        fold_run(sums, count, column, run);
    }
}
