//! A rip's words, read once in pieces: the parity of its columns, their seal, and its edges.
#![tactic(auto)]

ghost use Rattle.std.specs.Prelude.{◌≡◌, ◌+◌, ◌*◌, ◌<◌, ◌≤◌, ◌++◌, ℕ, List, length, IfSome, IfOk};
ghost use Rattle.std.specs.Option.{ForSome};
ghost use Rattle.rip_outside.specs.Reading.{OnlyReads};
ghost use Rattle.column_map.specs.Columns.{per_column, table_of_image};
ghost use Rattle.syndrome_stream.specs.Parity.{image_parity};
ghost use Rattle.offset_slide.specs.Slides.{TableAndEdgesStandFor};
ghost use Rattle.image_mender.specs.Joined.{AreInFiles, joined_words, word_count};
ghost use Rattle.image_mender.specs.Seal.{Seals, seal_of_table};
ghost use Rattle.column_map.specs.Npar.{parity_words};
ghost use Rattle.engine_words.specs.Records.{covered_words};
ghost use Rattle.parity_store.specs.Record.{parity_count, parity_rows};
ghost use Rattle.engine_steps.specs.Steps.{ReadsOnly, Takes};

use column_map::{Npar, STRIDE, Shape};
use engine_steps::{PIECE, Stop, zero_bytes, zero_words};
use image_mender::{Image, Sealer};
use offset_slide::Edges;
use parity_store::Parity;
use rip_outside::{Shelf, ShelfCall};
use std::alloc::Global;
use syndrome_stream::{Registers, Table};

/// Reads the rip's words once, in pieces: the parity of its columns is summed, and its edges are kept.
pub fn sum_rip<const P: usize, S: Shelf>(
    alloc: Global,
    shelf: &mut S,
    image: &Image,
    shape: Shape,
) -> Result<(Table<P>, Edges), Stop>
    requires size { P ≤ 32 }
    requires inside { ForSome (S.held shelf.old) (AreInFiles image.now) }
    requires count { word_count image.now ≡ 1176 * shape }
    ensures sectors { IfOk result (λ summed. summed.1.sectors ≡ shape) }
    ensures parity { IfSome (S.held shelf.old) (λ files. IfOk result (λ summed. summed.0 ≡ image_parity P (per_column shape) (joined_words image.now files))) }
    ensures stands { IfOk result (λ summed. (y : List ℕ) × TableAndEdgesStandFor P summed.0 summed.1 y × IfSome (S.held shelf.old) (λ files. y ≡ joined_words image.now files)) }
    ensures only { OnlyReads S.Shelf shelf.old shelf.new }
    ensures cause { ReadsOnly (S.faults shelf.old) (S.faults shelf.new) result }
    ensures taken { Takes (2 * word_count image.now) result (S.taken shelf.old) (S.taken shelf.new) }
{
    let mut registers = Registers::<P>::new(alloc, shape)?;
    let mut edges = Edges::new(alloc, shape)?;
    let mut scratch = zero_bytes(alloc, 2 * PIECE)?;
    let mut words = zero_words(alloc, PIECE)?;
    let all = image.words();
    let mut at = 0;
    'pieces: while at < all {
        let count = (all - at).min(PIECE as u64) as usize;
        let piece = &mut words[..count];
        let Ok(()) = image.read(shelf, at, piece, &mut scratch) else {
            return Err(Stop::ReadFault {
                call: ShelfCall::ReadAt,
            });
        };
        registers.absorb(piece);
        edges.absorb(piece);
        at += count as u64;
    }
    Ok((registers.finish(), edges))
}

// Puts those of a piece's words, which begin at the rip's word `at`, that stand in its columns to a seal in the making.
fn absorb_covered(sealer: &mut Sealer, shape: Shape, at: u64, piece: &[u16], bytes: &mut [u8])
    requires room { 2 * length piece.now ≤ length bytes.old }
    requires within { at + length piece.now ≤ 1176 * shape }
    ensures stands { (y : List ℕ) → length y ≡ at → Seals sealer.old (covered_words (per_column shape) y) → Seals sealer.new (covered_words (per_column shape) (y ++ piece.now)) }
    ensures bytes { length bytes.new ≡ length bytes.old }
{
    let first = u64::from(STRIDE);
    let end = first + u64::from(shape.per_column() * STRIDE);
    let count = piece.len() as u64;
    let from = first.saturating_sub(at).min(count) as usize;
    let to = end.saturating_sub(at).min(count) as usize;
    sealer.absorb(&piece[from..to], bytes);
}

/// Reads the rip's words once, in pieces: the parity of its columns is summed, and the seal of their words.
pub fn sum_and_seal<const P: usize, S: Shelf>(
    alloc: Global,
    shelf: &mut S,
    image: &Image,
    shape: Shape,
) -> Result<(Table<P>, [u8; 32]), Stop>
    requires size { P ≤ 32 }
    requires inside { ForSome (S.held shelf.old) (AreInFiles image.now) }
    requires count { word_count image.now ≡ 1176 * shape }
    ensures parity { IfSome (S.held shelf.old) (λ files. IfOk result (λ summed. summed.0 ≡ image_parity P (per_column shape) (joined_words image.now files))) }
    ensures seal { IfSome (S.held shelf.old) (λ files. IfOk result (λ summed. summed.1 ≡ seal_of_table (per_column shape) (table_of_image (joined_words image.now files)))) }
    ensures only { OnlyReads S.Shelf shelf.old shelf.new }
    ensures cause { ReadsOnly (S.faults shelf.old) (S.faults shelf.new) result }
    ensures taken { Takes (2 * word_count image.now) result (S.taken shelf.old) (S.taken shelf.new) }
{
    let mut registers = Registers::<P>::new(alloc, shape)?;
    let mut sealer = Sealer::new();
    let mut scratch = zero_bytes(alloc, 2 * PIECE)?;
    let mut words = zero_words(alloc, PIECE)?;
    let all = image.words();
    let mut at = 0;
    'pieces: while at < all {
        let count = (all - at).min(PIECE as u64) as usize;
        let piece = &mut words[..count];
        let Ok(()) = image.read(shelf, at, piece, &mut scratch) else {
            return Err(Stop::ReadFault {
                call: ShelfCall::ReadAt,
            });
        };
        registers.absorb(piece);
        absorb_covered(&mut sealer, shape, at, piece, &mut scratch);
        at += count as u64;
    }
    Ok((registers.finish(), sealer.finish()))
}

/// The parity of the rip, so many words for each column, and the seal of its columns' words.
pub fn parity_and_seal<S: Shelf>(
    alloc: Global,
    shelf: &mut S,
    image: &Image,
    shape: Shape,
    npar: Npar,
) -> Result<(Parity, [u8; 32]), Stop>
    requires inside { ForSome (S.held shelf.old) (AreInFiles image.now) }
    requires count { word_count image.now ≡ 1176 * shape }
    ensures size { IfOk result (λ summed. parity_count summed.0 ≡ parity_words npar) }
    ensures parity { IfSome (S.held shelf.old) (λ files. IfOk result (λ summed. parity_rows summed.0 ≡ image_parity (parity_words npar) (per_column shape) (joined_words image.now files))) }
    ensures seal { IfSome (S.held shelf.old) (λ files. IfOk result (λ summed. summed.1 ≡ seal_of_table (per_column shape) (table_of_image (joined_words image.now files)))) }
    ensures only { OnlyReads S.Shelf shelf.old shelf.new }
    ensures cause { ReadsOnly (S.faults shelf.old) (S.faults shelf.new) result }
    ensures taken { Takes (2 * word_count image.now) result (S.taken shelf.old) (S.taken shelf.new) }
{
    match npar {
        Npar::Four => {
            let (table, seal) = sum_and_seal::<4, S>(alloc, shelf, image, shape)?;
            Ok((Parity::Four(table), seal))
        }
        Npar::Eight => {
            let (table, seal) = sum_and_seal::<8, S>(alloc, shelf, image, shape)?;
            Ok((Parity::Eight(table), seal))
        }
        Npar::Sixteen => {
            let (table, seal) = sum_and_seal::<16, S>(alloc, shelf, image, shape)?;
            Ok((Parity::Sixteen(table), seal))
        }
        Npar::ThirtyTwo => {
            let (table, seal) = sum_and_seal::<32, S>(alloc, shelf, image, shape)?;
            Ok((Parity::ThirtyTwo(table), seal))
        }
    }
}
