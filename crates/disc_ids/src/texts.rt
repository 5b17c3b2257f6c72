// The texts whose digests are ids.
ghost use Rattle.std.specs.Prelude.{◌≡◌, ◌+◌, ◌-◌, ◌<◌, ◌≤◌, ◌∷◌, [], ◌++◌, length, replicate, IfOk, OnOk};
ghost use Rattle.disc_toc.specs.Toc.{toc_of};
ghost use Rattle.disc_ids.specs.Texts.{hex_digit, hex_digits, later_starts, musicbrainz_text, store_key_text, track_field, track_fields};

use crate::places::{begin, lead};
use disc_toc::Layout;
use rip_basics::Oom;
use std::alloc::Global;

// The most tracks of a disc.
const MOST_TRACKS: usize = 99;

// The characters of a store key's text.
const KEY_LENGTH: usize = 800;

fn hex(digit: u32) -> u8
    requires { digit < 16 }
    ensures { result ≡ hex_digit digit }
{
    if digit < 10 {
        digit as u8 + b'0'
    } else {
        (digit - 10) as u8 + b'A'
    }
}

// Adds the last digits of a number, in upper-case hexadecimal, the highest first.
fn add_hex(text: &mut Vec<u8>, digits: u32, number: u32) -> Result<(), Oom>
    requires { digits ≤ 8 }
    ensures { OnOk result (text.new.items ≡ text.old.items ++ hex_digits digits number) }
{
    for i in 0..digits {
        text.push(hex((number >> (4 * (digits - 1 - i))) % 16))?;
    }
    Ok(())
}

// What the text of a MusicBrainz id says of the track after this many others, which need not be on the disc.
fn field_of(layout: &Layout, before: usize) -> u32
    ensures { result ≡ track_field (toc_of layout.now) (before + 1) }
{
    if before < layout.starts.as_slice().len() {
        begin(layout, before) + 150
    } else {
        0
    }
}

// Adds what the text of a MusicBrainz id says of 99 tracks.
fn add_fields(text: &mut Vec<u8>, layout: &Layout) -> Result<(), Oom>
    ensures { OnOk result (text.new.items ≡ text.old.items ++ track_fields (toc_of layout.now) 99) }
{
    for i in 0..MOST_TRACKS {
        add_hex(text, 8, field_of(layout, i))?;
    }
    Ok(())
}

// The text of a disc's MusicBrainz id.
pub(crate) fn text_for_musicbrainz(alloc: Global, layout: &Layout) -> Result<Vec<u8>, Oom>
    ensures { IfOk result (λ text. text.items ≡ musicbrainz_text (toc_of layout.now)) }
{
    let mut text = Vec::new(alloc);
    add_hex(&mut text, 2, 1)?;
    add_hex(&mut text, 2, layout.starts.as_slice().len() as u32)?;
    add_hex(&mut text, 8, lead(layout) + 150)?;
    add_fields(&mut text, layout)?;
    Ok(text)
}

// Adds how far after the first track the others begin.
fn add_later_starts(text: &mut Vec<u8>, layout: &Layout) -> Result<(), Oom>
    ensures { OnOk result (text.new.items ≡ text.old.items ++ later_starts layout.now.starts (length layout.now.starts - 1)) }
{
    let starts = layout.starts.as_slice();
    for i in 0..starts.len() - 1 {
        add_hex(text, 8, starts[i + 1] - starts[0])?;
    }
    Ok(())
}

fn add_zeros(text: &mut Vec<u8>, count: usize) -> Result<(), Oom>
    ensures { OnOk result (text.new.items ≡ text.old.items ++ replicate count 48) }
{
    for i in 0..count {
        text.push(b'0')?;
    }
    Ok(())
}

// The text of a disc's key.
pub(crate) fn text_for_key(alloc: Global, layout: &Layout) -> Result<Vec<u8>, Oom>
    ensures { IfOk result (λ text. text.items ≡ store_key_text (toc_of layout.now)) }
{
    let starts = layout.starts.as_slice();
    let mut text = Vec::new(alloc);
    add_later_starts(&mut text, layout)?;
    add_hex(&mut text, 8, layout.sectors - starts[0])?;
    add_zeros(&mut text, KEY_LENGTH - 8 * starts.len())?;
    Ok(text)
}
