// Words and WAV files that are known.
use std::alloc::{AllocError, Global};
use std::test::Fail;
use wav_frames::canonical_header;

// The most words of a WAV file.
const MOST_WORDS: usize = 523_908_000;

// The WAV file of these words: a header, and then each word low byte first.
pub fn wav(alloc: Global, words: &[u16]) -> Result<Vec<u8>, Fail> {
    if words.len() > MOST_WORDS {
        return Err(Fail::from("too many words"));
    }
    let mut bytes = Vec::new(alloc);
    bytes.extend_from_slice(&canonical_header(words.len() as u64))?;
    for word in words {
        bytes.extend_from_slice(&word.to_le_bytes())?;
    }
    Ok(bytes)
}

// The words of 100 sectors whose samples are the numbers from 0 on, later by so many samples, with zeros before.
pub fn late(alloc: Global, samples: u16) -> Result<Vec<u16>, AllocError> {
    let mut words = Vec::new(alloc);
    for n in 0..58_800u16 {
        let word = n.saturating_sub(samples);
        words.extend_from_slice(&[word, word])?;
    }
    Ok(words)
}
