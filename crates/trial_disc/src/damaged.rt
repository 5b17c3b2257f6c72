// Late and damaged rips.
ghost use Rattle.std.specs.Prelude.{◌≡◌, ◌*◌, ◌^◌, ◌<◌, ◌≤◌, IfOk, length};
ghost use Rattle.rip_basics.specs.Disc.{sector_words};
ghost use Rattle.column_map.specs.Columns.{IsOffset, per_column, stride};
ghost use Rattle.trial_disc.specs.Damaged.{damaged, hit_column, hit_number, late, word_at};

use column_map::{STRIDE, Shape};
use rip_basics::Oom;
use std::alloc::Global;

// The word at a place, or 0 where there is none.
fn word_at(words: &[u16], at: i64) -> u16
    ensures { result ≡ word_at words.now at }
{
    if at < 0 {
        return 0;
    }
    words.get(at as usize).copied().unwrap_or(0)
}

// The words of a rip that is so many samples late.
fn late_words(alloc: Global, disc: &[u16], shift: i32) -> Result<Vec<u16>, Oom>
    requires { length disc.now < 2 ^ 32 }
    ensures { IfOk result (λ words. words.items ≡ late disc.now shift) }
{
    let mut words = Vec::with_capacity(alloc, disc.len())?;
    for i in 0..disc.len() {
        let word = word_at(disc, i as i64 - 2 * i64::from(shift));
        words.push(word)?;
    }
    Ok(words)
}

// The column that a hit strikes. Its factor and the number of columns have none in common, so 11,760 hits in a row
// strike each column once.
fn hit_column(hit: u32) -> u32
    requires { hit < 58800 }
    ensures value { result ≡ hit_column hit }
    ensures column { result < stride }
{
    hit * 4099 % STRIDE
}

// The number of the word that a hit strikes in its column, where columns have so many words.
fn hit_number(count: u32, hit: u32) -> u32
    requires words { 1 ≤ count }
    requires few { hit < 58800 }
    ensures value { result ≡ hit_number count hit }
    ensures number { result < count }
{
    (hit % STRIDE + hit / STRIDE) % count
}

// Strikes a rip, so many samples late, with so many hits.
fn damage(shape: Shape, words: &mut [u16], shift: i32, hits: u32)
    requires whole { length words.old ≡ sector_words * shape }
    requires offset { IsOffset shift }
    requires few { hits ≤ 58800 }
    ensures { words.new ≡ damaged (per_column shape) shift hits words.old }
{
    let count = shape.per_column();
    for hit in 0..hits {
        let at = shape.place(shift, hit_column(hit), hit_number(count, hit));
        words[at as usize] ^= (hit % 65_535 + 1) as u16;
    }
}

/// The rip of a disc's words that is so many samples late, or early where that is negative, after so many hits. Words
/// that the disc doesn't have are 0. A hit exclusive-ors one covered word with a number from 1 to 65,535, and of 11,760
/// hits in a row each strikes another column. `Oom` where memory was refused.
pub fn made_rip(
    alloc: Global,
    shape: Shape,
    disc: &[u16],
    shift: i32,
    hits: u32,
) -> Result<Vec<u16>, Oom>
    requires whole { length disc.now ≡ sector_words * shape }
    requires offset { IsOffset shift }
    requires few { hits ≤ 58800 }
    ensures { IfOk result (λ words. words.items ≡ damaged (per_column shape) shift hits (late disc.now shift)) }
{
    let mut words = late_words(alloc, disc, shift)?;
    damage(shape, &mut words, shift, hits);
    Ok(words)
}
