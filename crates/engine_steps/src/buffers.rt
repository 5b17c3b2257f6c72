// Buffers for words and bytes.
ghost use Rattle.std.specs.Prelude.{◌≡◌, vec_len, IfOk};

use std::alloc::{AllocError, Global};

/// The words that are read or written at a time.
pub const PIECE: usize = 65_536;

/// So many bytes, all 0.
pub fn zero_bytes(alloc: Global, count: usize) -> Result<Vec<u8>, AllocError>
    ensures { IfOk result (λ bytes. vec_len bytes ≡ count) }
{
    vec![in alloc; 0u8; count]
}

/// So many words, all 0.
pub fn zero_words(alloc: Global, count: usize) -> Result<Vec<u16>, AllocError>
    ensures { IfOk result (λ words. vec_len words ≡ count) }
{
    vec![in alloc; 0u16; count]
}
