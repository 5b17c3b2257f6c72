// A late rip that is mended a word at a time.
ghost use Rattle.std.specs.Prelude.{◌≢◌, All, IsTrue};

use crate::made::{late, wav};
use column_map::Fix;
use image_mender::write_mended;
use rip_inputs::open_rip;
use rip_memory::{MemoryShelf, fill};
use rip_outside::{Name, Shelf};
use std::alloc::{AllocError, Global};
use std::test::Fail;

// Four words of column 5 of a rip of 100 sectors that is late by 30 samples.
const FOUR: [Fix; 4] = [
    Fix {
        place: 11_825,
        flip: 0x5555,
    },
    Fix {
        place: 23_585,
        flip: 0x5555,
    },
    Fix {
        place: 35_345,
        flip: 0x5555,
    },
    Fix {
        place: 47_105,
        flip: 0x5555,
    },
];

// The words of that rip with these wrong.
pub fn wrong(alloc: Global) -> Result<Vec<u16>, AllocError> {
    let mut words = late(alloc, 30)?;
    for fix in &FOUR {
        if let Some(word) = words.get_mut(fix.place as usize) {
            *word ^= fix.flip;
        }
    }
    Ok(words)
}

// Whether no file that was read has this name.
fn is_unread(names: &[Name], name: &str) -> bool
    ensures { IsTrue result → All (λ read. read ≢ name.now) names.now }
{
    names.iter().all(|read| read.as_str() != name)
}

// The file that is written of the rip `in.wav` with the four words mended.
fn mended(alloc: Global, shelf: &mut MemoryShelf) -> Result<Vec<u8>, Fail> {
    let rip = open_rip(alloc, shelf, "in.wav")?;
    let is_free = shelf.size("out.wav")?.is_none();
    if !is_free || rip.image.words() < 47_106 || !is_unread(rip.names.as_slice(), "out.wav.part") {
        return Err(Fail::from("another rip"));
    }
    let (mut words, mut bytes) = ([0u16; 1], [0u8; 2]);
    write_mended(
        shelf,
        &rip.image,
        &FOUR,
        "out.wav.part",
        "out.wav",
        &mut words,
        &mut bytes,
    )?;
    Ok(shelf.bytes("out.wav").unwrap_or(&[]).to_vec(alloc)?)
}

#[test]
fn a_late_rip_is_mended_a_word_at_a_time(rt: HostRuntime) -> Result<(), Fail> {
    let alloc = rt.alloc();
    let mut shelf = MemoryShelf::new(alloc);
    fill(&mut shelf, "in.wav", &wav(alloc, &wrong(alloc)?)?)?;
    let written = mended(alloc, &mut shelf)?;
    let wanted = wav(alloc, &late(alloc, 30)?)?;
    assert!(rt; written.as_slice() == wanted.as_slice());
    Ok(())
}
