// Words that a seed makes.
ghost use Rattle.std.specs.Prelude.{◌≡◌, ◌^◌, ◌<◌, IfOk};
ghost use Rattle.trial_disc.specs.Generated.{generated, next};

use rip_basics::Oom;
use std::alloc::Global;

// What a number of the generator is taken times: the generator is that of `drand48`.
const FACTOR: u128 = 25_214_903_917;

// What is added to it.
const ADDEND: u128 = 11;

// Its numbers are below this.
const MODULUS: u128 = 1 << 48;

// The generator's number after this one.
fn next(state: u64) -> u64
    requires { state < 2 ^ 48 }
    ensures { result ≡ next state }
{
    ((u128::from(state) * FACTOR + ADDEND) % MODULUS) as u64
}

/// So many words that a seed makes. Before each word the generator's number, which is first the seed, is taken times
/// 25,214,903,917 and 11 is added, modulo 2^48; the upper 16 of its 48 bits are the word. `Oom` where memory was refused.
pub fn disc_words(alloc: Global, seed: u32, count: u32) -> Result<Vec<u16>, Oom>
    ensures { IfOk result (λ words. words.items ≡ generated seed count) }
{
    let mut words = Vec::with_capacity(alloc, count as usize)?;
    let mut state = u64::from(seed);
    for _ in 0..count {
        state = next(state);
        words.push((state >> 32) as u16)?;
    }
    Ok(words)
}
