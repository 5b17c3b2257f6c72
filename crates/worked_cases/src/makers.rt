// Files of the folder, made by the words of a script. Places of words are counted from 0, and a WAV file has a header of
// 44 bytes before its words.
//
//     bytes TEXT                     the rest of the line, where `\n` and `\xHH` stand for a byte each
//     wave SECTORS N                 a WAV file: both words of each sample are its number, modulo N
//     ramp SECTORS, zero SECTORS     the same, modulo 65,536 and modulo 1
//     join NAMES                     the bytes of these files, one after the other
//     late NAME SAMPLES              the WAV file NAME so many samples later, with zeros before
//     early NAME SAMPLES             the same, earlier, with zeros behind
//     flip NAME BITS PLACES          with the words at these places exclusive-ored
//     set NAME WORD FROM TO STEP     with each STEPth word from FROM on, before TO, set
//     patch NAME AT BYTES            with these bytes, as numbers, from a place on
//     cut NAME FROM TO               its bytes from FROM on, before TO
//     signed NAME                    its bytes, and then their SHA-256, of 32 bytes
use crate::script::NotDone;
use rip_memory::MemoryShelf;
use sha2::{Digest, Sha256};
use std::alloc::{AllocError, Global};
use wav_frames::canonical_header;

// The bytes before the words of a WAV file.
const HEADER: usize = 44;

// The samples of a sector.
const SECTOR: u32 = 588;

// The most sectors of a disc.
const MOST_SECTORS: u32 = 445_500;

// The bytes of a text with escapes.
fn escaped(alloc: Global, text: &str) -> Result<Vec<u8>, NotDone> {
    let mut bytes = Vec::new(alloc);
    for (i, piece) in text.split('\\').enumerate() {
        let piece = piece.as_bytes();
        let mut byte = [b'\n'];
        let rest = match piece {
            _ if i == 0 => piece,
            [b'n', rest @ ..] => rest,
            [b'x', high, low, rest @ ..] => {
                hex::decode_to_slice([*high, *low].as_slice(), &mut byte)?;
                rest
            }
            _ => return Err(NotDone),
        };
        if i > 0 {
            bytes.push(byte[0])?;
        }
        bytes.extend_from_slice(rest)?;
    }
    Ok(bytes)
}

// A WAV file whose samples are their numbers, modulo `period`.
fn wave(alloc: Global, sectors: u32, period: u32) -> Result<Vec<u8>, AllocError> {
    let samples = SECTOR * sectors.min(MOST_SECTORS);
    let mut bytes = Vec::new(alloc);
    bytes.extend_from_slice(&canonical_header(2 * u64::from(samples)))?;
    for n in 0..samples {
        let word = (n % period.max(1) % 65_536) as u16;
        let [low, high] = word.to_le_bytes();
        bytes.extend_from_slice(&[low, high, low, high])?;
    }
    Ok(bytes)
}

// The bytes of a file that is there.
fn bytes_of<'a>(files: &'a MemoryShelf, name: &str) -> Result<&'a [u8], NotDone> {
    match files.bytes(name) {
        Some(bytes) => Ok(bytes),
        None => Err(NotDone),
    }
}

// The bytes of these files, one after the other.
fn joined(alloc: Global, files: &MemoryShelf, names: &str) -> Result<Vec<u8>, NotDone> {
    let mut bytes = Vec::new(alloc);
    for name in names.split(' ') {
        bytes.extend_from_slice(bytes_of(files, name)?)?;
    }
    Ok(bytes)
}

// These bytes, and then their SHA-256.
fn signed(alloc: Global, body: &[u8]) -> Result<Vec<u8>, AllocError> {
    let mut bytes = body.to_vec(alloc)?;
    bytes.extend_from_slice(&Sha256::digest(body))?;
    Ok(bytes)
}

// A WAV file with its words so many samples later and earlier, and zeros in the gaps.
fn shifted(alloc: Global, wav: &[u8], later: u32, earlier: u32) -> Result<Vec<u8>, AllocError> {
    let (header, audio) = wav.split_at(wav.len().min(HEADER));
    let cut = audio.len().min(4 * earlier as usize);
    let gap = (audio.len() - cut).min(4 * later as usize);
    let mut bytes = header.to_vec(alloc)?;
    bytes.extend_from_slice(&vec![in alloc; 0; gap]?)?;
    bytes.extend_from_slice(&audio[cut..audio.len() - gap])?;
    bytes.extend_from_slice(&vec![in alloc; 0; cut]?)?;
    Ok(bytes)
}

// Exclusive-ors words of a WAV file.
fn flip(wav: &mut [u8], bits: u32, places: &[u32]) {
    let [low, high, ..] = bits.to_le_bytes();
    for place in places {
        let at = HEADER + 2 * *place as usize;
        if at + 1 < wav.len() {
            wav[at] ^= low;
            wav[at + 1] ^= high;
        }
    }
}

// Sets words of a WAV file.
fn set(wav: &mut [u8], word: u32, from: u32, to: u32, step: u32) {
    let [low, high, ..] = word.to_le_bytes();
    for place in (from..to).step_by(step.max(1) as usize) {
        let at = HEADER + 2 * place as usize;
        if at + 1 < wav.len() {
            wav[at] = low;
            wav[at + 1] = high;
        }
    }
}

// Writes over bytes of a file.
fn patch(file: &mut [u8], at: u32, bytes: &[u32]) {
    for (place, byte) in file.iter_mut().skip(at as usize).zip(bytes) {
        *place = (*byte % 256) as u8;
    }
}

// A file, changed as the maker with its numbers says.
fn changed(alloc: Global, file: &[u8], kind: &str, numbers: &[u32]) -> Result<Vec<u8>, NotDone> {
    let mut bytes = file.to_vec(alloc)?;
    match (kind, numbers) {
        ("flip", [bits, places @ ..]) => flip(&mut bytes, *bits, places),
        ("set", [word, from, to, step]) => set(&mut bytes, *word, *from, *to, *step),
        ("patch", [at, with @ ..]) => patch(&mut bytes, *at, with),
        ("cut", [from, to]) => {
            bytes.truncate(*to as usize);
            bytes.drain(..bytes.len().min(*from as usize));
        }
        ("late", [samples]) => return Ok(shifted(alloc, file, *samples, 0)?),
        ("early", [samples]) => return Ok(shifted(alloc, file, 0, *samples)?),
        _ => return Err(NotDone),
    }
    Ok(bytes)
}

// The numbers of a text, between blanks.
fn numbers(alloc: Global, text: &str) -> Result<Vec<u32>, NotDone> {
    let mut numbers = Vec::new(alloc);
    for word in text.split(' ') {
        numbers.push(word.parse::<u32>()?)?;
    }
    Ok(numbers)
}

/// The bytes that a maker with its words makes, over the files of a folder.
pub fn made(alloc: Global, files: &MemoryShelf, maker: &str) -> Result<Vec<u8>, NotDone> {
    let (kind, rest) = maker.split_once(' ').unwrap_or((maker, ""));
    match kind {
        "bytes" => escaped(alloc, rest),
        "join" => joined(alloc, files, rest),
        "signed" => Ok(signed(alloc, bytes_of(files, rest)?)?),
        "zero" => Ok(wave(alloc, rest.parse()?, 1)?),
        "ramp" => Ok(wave(alloc, rest.parse()?, 65_536)?),
        "wave" => match rest.split_once(' ') {
            Some((sectors, period)) => Ok(wave(alloc, sectors.parse()?, period.parse()?)?),
            None => Err(NotDone),
        },
        _ => match rest.split_once(' ') {
            Some((name, rest)) => {
                changed(alloc, bytes_of(files, name)?, kind, &numbers(alloc, rest)?)
            }
            None => Err(NotDone),
        },
    }
}
