// Pieces of a joined image, and the file that is written of it.
ghost use Rattle.std.specs.Prelude.{◌≡◌, ◌+◌, ◌%◌, ◌<◌, ◌≤◌, codes, length, IfOk, None};
ghost use Rattle.std.specs.FinMap.{get};
ghost use Rattle.image_mender.specs.Joined.{AreInFiles};
ghost use Rattle.library_cases.specs.Parts.{two_parts};

use crate::made::wav;
use column_map::Fix;
use image_mender::{Image, Part, write_mended};
use rip_memory::{MemoryShelf, fill};
use rip_outside::Name;
use std::alloc::Global;
use std::test::Fail;

// A part of four words behind a byte, and one of two.
fn two_parts(alloc: Global) -> Result<Image, Fail>
    ensures { IfOk result (λ image. image ≡ two_parts) }
{
    let first = Part {
        name: Name::of(String::from_str(alloc, "a")?),
        data_at: 1,
        words: 4,
    };
    let second = Part {
        name: Name::of(String::from_str(alloc, "b")?),
        data_at: 0,
        words: 2,
    };
    Ok(Image::of(vec![in alloc; first, second]?))
}

// The files of both parts, whose words are 1, 2, 259, 1024, 5, 518.
fn shelf_of_parts(alloc: Global) -> Result<MemoryShelf, Fail>
    ensures inside { IfOk result (λ shelf. AreInFiles two_parts shelf.files) }
    ensures free { IfOk result (λ shelf. get shelf.files (codes "out.wav") ≡ None) }
{
    let mut shelf = MemoryShelf::new(alloc);
    fill(&mut shelf, "a", &[9, 1, 0, 2, 0, 3, 1, 0, 4, 7])?;
    fill(&mut shelf, "b", &[5, 0, 6, 2])?;
    Ok(shelf)
}

// Reads a piece of the words, and tells how many bytes that took.
fn read_piece(alloc: Global, at: u64, buf: &mut [u16], scratch: &mut [u8]) -> Result<u128, Fail>
    requires within { at + length buf.old ≤ 6 }
    requires room { 0 < length scratch.old }
    requires pairs { length scratch.old % 2 ≡ 0 }
{
    let mut shelf = shelf_of_parts(alloc)?;
    let image = two_parts(alloc)?;
    image.read(&mut shelf, at, buf, scratch)?;
    Ok(shelf.taken_so_far())
}

#[test]
fn each_piece_of_two_parts(rt: HostRuntime) -> Result<(), Fail> {
    let alloc = rt.alloc();
    let words = [1, 2, 259, 1024, 5, 518];
    assert_eq!(rt; two_parts(alloc)?.words(), 6);
    for at in 0..7usize {
        for end in at..7usize {
            for room in 1..4usize {
                let mut buf = [0u16; 6];
                let mut scratch = [0u8; 6];
                let taken = read_piece(
                    alloc,
                    at as u64,
                    &mut buf[..end - at],
                    &mut scratch[..2 * room],
                )?;
                assert_eq!(rt; &buf[..end - at], &words[at..end]);
                assert_eq!(rt; taken, 2 * (end - at) as u128);
            }
        }
    }
    Ok(())
}

// Fixes in both parts.
const FIXES: [Fix; 3] = [
    Fix {
        place: 0,
        flip: 0xffff,
    },
    Fix {
        place: 3,
        flip: 0x0401,
    },
    Fix { place: 4, flip: 2 },
];

// The file that is written of the words with the fixes.
fn write_parts(alloc: Global, buf: &mut [u16], scratch: &mut [u8]) -> Result<Vec<u8>, Fail>
    requires words { 0 < length buf.old }
    requires room { 0 < length scratch.old }
    requires pairs { length scratch.old % 2 ≡ 0 }
{
    let mut shelf = shelf_of_parts(alloc)?;
    let image = two_parts(alloc)?;
    write_mended(
        &mut shelf,
        &image,
        &FIXES,
        "out.wav.part",
        "out.wav",
        buf,
        scratch,
    )?;
    Ok(shelf.bytes("out.wav").unwrap_or(&[]).to_vec(alloc)?)
}

// Buffers of any length write the same file: of one word at a time, and of all.
#[test]
fn buffers_of_one_word_write_the_same(rt: HostRuntime) -> Result<(), Fail> {
    let alloc = rt.alloc();
    let mended = wav(alloc, &[0xfffe, 2, 259, 1, 7, 518])?;
    for room in 1..8usize {
        for pairs in 1..8usize {
            let mut buf = [0u16; 7];
            let mut scratch = [0u8; 14];
            let written = write_parts(alloc, &mut buf[..room], &mut scratch[..2 * pairs])?;
            assert_eq!(rt; written.as_slice(), mended.as_slice());
        }
    }
    Ok(())
}
