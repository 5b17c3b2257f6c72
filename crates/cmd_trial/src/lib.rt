//! The command `trial`: a disc that a seed makes is registered, and a late and damaged rip of it mended, on a shelf of their own.
#![tactic(auto)]

ghost use Rattle.std.specs.Prelude.{◌≡◌, ◌≢◌, ◌*◌, ◌<◌, ◌≤◌, ℕ, All, List, length, Ok, None, IfOk, OnOk, codes};
ghost use Rattle.std.specs.List.Sorted.{IsStrictlyIncreasing};
ghost use Rattle.std.specs.FinMap.{empty, get, insert};
ghost use Rattle.rip_outside.specs.Files.{after_put};
ghost use Rattle.column_map.specs.Columns.{IsSectorCount};
ghost use Rattle.column_map.specs.Mending.{places};
ghost use Rattle.disc_toc.specs.OneTrack.{one_track_of};
ghost use Rattle.wav_frames.specs.Wav.{wav_bytes};
ghost use Rattle.image_mender.specs.declared.image.Part.{Part};
ghost use Rattle.image_mender.specs.Joined.{AreInFiles, joined_words, word_count};
ghost use Rattle.image_mender.specs.Patched.{patched};
ghost use Rattle.rip_inputs.specs.Opening.{Opened};
ghost use Rattle.rip_words.specs.Command.{IsTrial};
ghost use Rattle.engine_steps.specs.Steps.{opened};
ghost use Rattle.engine_words.specs.Records.{record_of};
ghost use Rattle.cmd_trial.specs.TrialOutcome.{IsTrialEnd, IsTrialText, known_rip};
ghost use Rattle.cmd_trial.specs.TrialFiles.{IsAlone, IsMendedTrial, registered_files};

use byteorder::{ByteOrder, LittleEndian};
use column_map::{Candidate, Npar, Shape};
use engine_search::{Picked, mend_of};
use engine_steps::{
    Compared, PIECE, Stop, compare, open_input, open_measured, zero_bytes, zero_words,
};
use engine_words::parity_and_seal;
use image_mender::{Image, MendFail, write_mended};
use parity_store::{PutFail, Record, put, record_bytes};
use rip_memory::{QuietShelf, fill};
use rip_outside::{Oom, ShelfFail, Text};
use rip_report::{Report, Status, TrialResult, text_of};
use std::alloc::Global;
use trial_disc::{disc_words, made_rip, same_covered};
use wav_frames::canonical_header;

// The want of memory for which a call stopped that nothing else can stop.
fn wanted(stop: Stop) -> Oom
    requires { stop ≡ Stop.Oom }
{
    match stop {
        Stop::Oom => Oom,
        _ => unreachable!(),
    }
}

// The bytes of a WAV file of these words.
fn wav_of(alloc: Global, words: &[u16]) -> Result<Vec<u8>, Oom>
    requires { length words.now ≤ 523908000 }
    ensures { IfOk result (λ bytes. bytes.items ≡ wav_bytes words.now) }
{
    let mut body = zero_bytes(alloc, 2 * words.len())?;
    LittleEndian::write_u16_into(words, &mut body);
    let mut bytes = Vec::from_array(alloc, canonical_header(words.len() as u64)).map_err(|_| Oom)?;
    match bytes.extend_from_slice(&body) {
        Ok(()) => Ok(bytes),
        Err(_) => Err(Oom),
    }
}

// Stores a WAV file of these words under a name.
fn store_wav(alloc: Global, shelf: &mut QuietShelf, name: &str, words: &[u16]) -> Result<(), Oom>
    requires { length words.now ≤ 523908000 }
    ensures { OnOk result (shelf.new.files ≡ insert shelf.old.files name.now (wav_bytes words.now)) }
{
    let bytes = wav_of(alloc, words)?;
    match fill(shelf, name, &bytes) {
        Ok(()) => Ok(()),
        Err(ShelfFail::Oom) => Err(Oom),
        Err(ShelfFail::Failed) => unreachable!(),
    }
}

// The bytes of the record of a disc that stands on the shelf alone.
fn record_disc(alloc: Global, shelf: &mut QuietShelf) -> Result<Vec<u8>, Oom>
    requires alone { (sectors : ℕ) × (disc : List ℕ) × IsAlone sectors disc shelf.old.files }
    ensures record { (sectors : ℕ) (disc : List ℕ) → IsAlone sectors disc shelf.old.files → IfOk result (λ bytes. bytes.items ≡ record_of 8 (one_track_of sectors) disc) }
    ensures same { shelf.new.files ≡ shelf.old.files }
{
    let (rip, shape) = open_measured(alloc, shelf, "disc.wav").map_err(wanted)?;
    let (parity, seal) = parity_and_seal(alloc, shelf, &rip.image, shape, Npar::Eight).map_err(
        wanted,
    )?;
    let record = Record {
        layout: rip.layout,
        parity,
        seal: Some(seal),
    };
    record_bytes(alloc, &record)
}

// Registers a disc with these words: its image and its record stand on the shelf.
fn register_disc(
    alloc: Global,
    shelf: &mut QuietShelf,
    shape: Shape,
    disc: &[u16],
) -> Result<(), Oom>
    requires new { shelf.old.files ≡ empty }
    requires range { IsSectorCount shape }
    requires whole { length disc.now ≡ 1176 * shape }
    ensures { OnOk result (shelf.new.files ≡ registered_files shape disc.now) }
{
    store_wav(alloc, shelf, "disc.wav", disc)?;
    let bytes = record_disc(alloc, shelf)?;
    match put(shelf, &bytes, "disc.rpar.part", "disc.rpar") {
        Ok(()) => Ok(()),
        Err(PutFail::Oom) => Err(Oom),
        Err(PutFail::WriteFault { .. }) => unreachable!(),
    }
}

// Writes a rip that was read, mended, beside it.
fn write_rip(
    alloc: Global,
    shelf: &mut QuietShelf,
    image: &Image,
    picked: &Picked,
) -> Result<(), Oom>
    requires inside { AreInFiles image.now shelf.old.files }
    requires lie { All (λ place. place < word_count image.now) (places picked.now.fixes.items) }
    requires rising { IsStrictlyIncreasing (places picked.now.fixes.items) }
    requires apart { All (λ (p : Part). p.name ≢ codes "out.wav.part") image.now }
    requires free { get shelf.old.files (codes "out.wav") ≡ None }
    ensures { OnOk result (shelf.new.files ≡ after_put (codes "out.wav.part") (codes "out.wav") (wav_bytes (patched picked.now.fixes.items (joined_words image.now shelf.old.files))) shelf.old.files) }
{
    let mut words = zero_words(alloc, PIECE)?;
    let mut bytes = zero_bytes(alloc, 2 * PIECE)?;
    match write_mended(
        shelf,
        image,
        &picked.fixes,
        "out.wav.part",
        "out.wav",
        &mut words,
        &mut bytes,
    ) {
        Ok(()) => Ok(()),
        Err(MendFail::Oom) => Err(Oom),
        Err(MendFail::ReadFault { .. } | MendFail::WriteFault { .. }) => unreachable!(),
    }
}

// Mends a rip with these words, once it stands beside its disc's record: the offset that is picked, or why none is.
fn mend_rip(
    alloc: Global,
    shelf: &mut QuietShelf,
    shape: Shape,
    disc: &[u16],
    rip: &[u16],
) -> Result<Result<Candidate, Status>, Oom>
    requires registered { shelf.old.files ≡ registered_files shape disc.now }
    requires range { IsSectorCount shape }
    requires disc_whole { length disc.now ≡ 1176 * shape }
    requires rip_whole { length rip.now ≡ 1176 * shape }
    ensures { IfOk result (λ picked. IsMendedTrial shape disc.now rip.now picked shelf.new.files) }
{
    store_wav(alloc, shelf, "rip.wav", rip)?;
    let Compared {
        image,
        shape,
        parity,
        seal,
        ..
    } = compare(alloc, shelf, "rip.wav", "disc.rpar").map_err(wanted)?;
    match mend_of(alloc, shelf, &image, shape, parity, seal, None) {
        Ok(picked) => {
            write_rip(alloc, shelf, &image, &picked)?;
            Ok(Ok(picked.at))
        }
        Err(Stop::Refused(status)) => Ok(Err(status)),
        Err(Stop::Oom) => Err(Oom),
        Err(Stop::ReadFault { .. } | Stop::WriteFault { .. }) => unreachable!(),
    }
}

// The words of the rip of this name.
fn read_rip(alloc: Global, shelf: &mut QuietShelf, name: &str) -> Result<Vec<u16>, Oom>
    requires { (rip : Opened) × (opened name.now shelf.old.files ≡ Ok rip) }
    ensures { (rip : Opened) → opened name.now shelf.old.files ≡ Ok rip → IfOk result (λ words. words.items ≡ rip.words) }
{
    match open_input(alloc, shelf, name) {
        Ok(rip) => {
            let mut words = zero_words(alloc, rip.image.words() as usize)?;
            let mut scratch = zero_bytes(alloc, 2 * PIECE)?;
            let Ok(()) = rip.image.read(shelf, 0, &mut words, &mut scratch) else {
                unreachable!();
            };
            Ok(words)
        }
        Err(stop) => Err(wanted(stop)),
    }
}

// What becomes of a rip by the record of a disc.
fn tried(alloc: Global, shape: Shape, disc: &[u16], rip: &[u16]) -> Result<TrialResult, Oom>
    requires range { IsSectorCount shape }
    requires disc_whole { length disc.now ≡ 1176 * shape }
    requires rip_whole { length rip.now ≡ 1176 * shape }
    ensures { IfOk result (λ end. IsTrialEnd disc.now (known_rip shape disc.now rip.now) end) }
{
    let mut shelf = QuietShelf::new(alloc);
    register_disc(alloc, &mut shelf, shape, disc)?;
    let picked = mend_rip(alloc, &mut shelf, shape, disc, rip)?;
    match picked {
        Ok(at) => {
            let mended = read_rip(alloc, &mut shelf, "out.wav")?;
            let same = same_covered(shape, at.offset, &mended, disc);
            Ok(TrialResult::Mended { at, same })
        }
        Err(Status::NoCandidate) => Ok(TrialResult::NoneNear),
        Err(Status::Several { first, second }) => Ok(TrialResult::Several { first, second }),
        Err(_) => unreachable!(),
    }
}

/// Makes a disc of `sectors` sectors from a seed, registers it with 8 parity words for each column, makes a rip of it
/// that is `shift` samples late and struck by `hits` hits, mends that rip by the record, and tells in lines what it was
/// asked for, what the mending came to, and whether it gave back the disc's words. All of it stands in memory. `Oom`
/// where memory was refused.
pub fn trial(alloc: Global, sectors: u32, seed: u32, shift: i32, hits: u32) -> Result<Text, Oom>
    requires { IsTrial sectors shift hits }
    ensures { IfOk result (λ text. IsTrialText sectors seed shift hits text) }
{
    let Some(shape) = Shape::of(sectors) else {
        unreachable!();
    };
    let disc = disc_words(alloc, seed, 1176 * sectors)?;
    let rip = made_rip(alloc, shape, &disc, shift, hits)?;
    let result = tried(alloc, shape, &disc, &rip)?;
    text_of(
        alloc,
        &Report::TrialOf {
            sectors,
            seed,
            shift,
            hits,
            result,
        },
    )
}
