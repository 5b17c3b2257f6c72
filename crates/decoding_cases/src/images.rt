// Images of known words.
ghost use Rattle.std.specs.Prelude.{◌≡◌, ◌*◌, IfOk, vec_len};

use std::alloc::{AllocError, Global};

// The words of so many samples: both words of each are its number, modulo 65,536.
pub fn ramp(alloc: Global, samples: u32) -> Result<Vec<u16>, AllocError>
    ensures { IfOk result (λ words. vec_len words ≡ 2 * samples) }
{
    let mut words = Vec::new(alloc);
    for n in 0..samples {
        let word = (n % 65_536) as u16;
        words.extend_from_slice(&[word, word])?;
    }
    Ok(words)
}

// Words that are 0, but for the word 1 at a place.
pub fn one_word(alloc: Global, count: usize, place: usize) -> Result<Vec<u16>, AllocError>
    ensures { IfOk result (λ words. vec_len words ≡ count) }
{
    let mut words = Vec::new(alloc);
    for i in 0..count {
        words.push(u16::from(i == place))?;
    }
    Ok(words)
}

// Words that follow no short pattern.
pub fn mixed(alloc: Global, count: usize) -> Result<Vec<u16>, AllocError>
    ensures { IfOk result (λ words. vec_len words ≡ count) }
{
    let mut words = Vec::new(alloc);
    let mut state = 1u32;
    for _ in 0..count {
        state = state.wrapping_mul(1_103_515_245).wrapping_add(12_345);
        words.push((state >> 16) as u16)?;
    }
    Ok(words)
}
