// The sheets of a disc, in a file for each track and in one file.
ghost use Rattle.std.specs.Prelude.{◌≡◌, ◌<◌, ◌++◌, ◌∷◌, [], IfOk, OnOk, slice_index};
ghost use Rattle.disc_toc.specs.Toc.{toc_of};
ghost use Rattle.track_split.specs.Sheets.{entry_lines, file_line, first_only, index_line, join_text, number_line, pregap_lines, split_text, text_of_lines, time_text, track_file, two_digits};

use disc_toc::Layout;
use rip_outside::Oom;
use std::alloc::{AllocError, Global};

// A number below 100 in two digits.
pub(crate) fn two_digits(number: u32) -> [u8; 2]
    requires { number < 100 }
    ensures { result ≡ two_digits number }
{
    [b'0' + (number / 10) as u8, b'0' + (number % 10) as u8]
}

// The name of a track's file in its folder: `track01.wav` and so on.
fn track_file(number: u32) -> [u8; 11]
    requires { number < 100 }
    ensures { result ≡ track_file number }
{
    let [tens, ones] = two_digits(number);
    [
        b't', b'r', b'a', b'c', b'k', tens, ones, b'.', b'w', b'a', b'v',
    ]
}

// A time in minutes, seconds and sectors.
fn time_text(sectors: u32) -> [u8; 8]
    requires { sectors < 450000 }
    ensures { result ≡ time_text sectors }
{
    let [m, n] = two_digits(sectors / 75 / 60);
    let [s, t] = two_digits(sectors / 75 % 60);
    let [f, g] = two_digits(sectors % 75);
    [m, n, b':', s, t, b':', f, g]
}

// Adds the line of a file.
fn push_file(text: &mut Vec<u8>, name: &[u8]) -> Result<(), AllocError>
    ensures { OnOk result (text.new.items ≡ text.old.items ++ text_of_lines (file_line name.now ∷ [])) }
{
    text.extend_from_slice(b"FILE \"")?;
    text.extend_from_slice(name)?;
    text.extend_from_slice(b"\" WAVE\n")
}

// Adds the line of a pregap, where there is one.
fn push_pregap(text: &mut Vec<u8>, pregap: u32) -> Result<(), AllocError>
    requires { pregap < 450000 }
    ensures { OnOk result (text.new.items ≡ text.old.items ++ text_of_lines (pregap_lines pregap)) }
{
    if pregap == 0 {
        return Ok(());
    }
    text.extend_from_slice(b"    PREGAP ")?;
    text.extend_from_slice(&time_text(pregap))?;
    text.extend_from_slice(b"\n")
}

// Adds the line of a track's number.
fn push_number(text: &mut Vec<u8>, number: u32) -> Result<(), AllocError>
    requires { number < 100 }
    ensures { OnOk result (text.new.items ≡ text.old.items ++ text_of_lines (number_line number ∷ [])) }
{
    text.extend_from_slice(b"  TRACK ")?;
    text.extend_from_slice(&two_digits(number))?;
    text.extend_from_slice(b" AUDIO\n")
}

// Adds the line of the time at which a track begins in its file.
fn push_index(text: &mut Vec<u8>, time: u32) -> Result<(), AllocError>
    requires { time < 450000 }
    ensures { OnOk result (text.new.items ≡ text.old.items ++ text_of_lines (index_line time ∷ [])) }
{
    text.extend_from_slice(b"    INDEX 01 ")?;
    text.extend_from_slice(&time_text(time))?;
    text.extend_from_slice(b"\n")
}

// Adds the lines of a track: its number, the pregap before it, and the time at which it begins in its file.
fn push_entry(text: &mut Vec<u8>, number: u32, pregap: u32, time: u32) -> Result<(), AllocError>
    requires number { number < 100 }
    requires pregap { pregap < 450000 }
    requires time { time < 450000 }
    ensures { OnOk result (text.new.items ≡ text.old.items ++ text_of_lines (entry_lines number pregap time)) }
{
    push_number(text, number)?;
    push_pregap(text, pregap)?;
    push_index(text, time)
}

// The pregap before the track before which there are `i`: only the first has one.
fn pregap_of(layout: &Layout, i: usize) -> u32
    ensures value { result ≡ first_only layout.now.pregap i }
    ensures bound { result < 450000 }
{
    if i == 0 { layout.pregap } else { 0 }
}

// The time at which a track begins in a file of its own: only the first has something before it.
fn own_time(layout: &Layout, i: usize) -> u32
    ensures value { result ≡ first_only (slice_index layout.now.starts 0) i }
    ensures bound { result < 450000 }
{
    if i == 0 {
        layout.starts.as_slice()[0]
    } else {
        0
    }
}

/// The sheet of a disc in a file for each track, whose names are those of `split_names` without the folder. Track 1 begins in its file
/// where the disc's first start is, each other one with its file.
pub fn split_sheet(alloc: Global, layout: &Layout) -> Result<Vec<u8>, Oom>
    ensures { IfOk result (λ text. text.items ≡ split_text (toc_of layout.now)) }
{
    let mut text = Vec::new(alloc);
    for i in 0..layout.starts.as_slice().len() {
        let number = i as u32 + 1;
        push_file(&mut text, &track_file(number))?;
        push_entry(&mut text, number, pregap_of(layout, i), own_time(layout, i))?;
    }
    Ok(text)
}

/// The sheet of a disc in one file, which is named so: each track begins where its start is.
pub fn join_sheet(alloc: Global, layout: &Layout, name: &str) -> Result<Vec<u8>, Oom>
    ensures { IfOk result (λ text. text.items ≡ join_text name.now (toc_of layout.now)) }
{
    let mut text = Vec::new(alloc);
    push_file(&mut text, name.as_bytes())?;
    let starts = layout.starts.as_slice();
    for i in 0..starts.len() {
        push_entry(&mut text, i as u32 + 1, pregap_of(layout, i), starts[i])?;
    }
    Ok(text)
}
