// The lines that more than one report has, and those of a run that is done.
ghost use Rattle.std.specs.Prelude.{◌≡◌, ◌++◌, codes, IfOk, IsOkAnd, unsigned_abs};
ghost use Rattle.std.specs.Fmt.{decimal};
ghost use Rattle.std.specs.String.{string_bytes};
ghost use Rattle.rip_report.specs.Texts.{candidate_line, joined_line, line, line_of, mendable_text, offset_text, offsets_text, registered_line, several_line, split_line, verified_text};

use column_map::Candidate;
use rip_outside::{Oom, Text};
use std::alloc::{AllocError, Global};

// The text of these lines, unless memory was wanting.
pub(crate) fn printed(lines: Result<String, AllocError>) -> Result<Text, Oom>
    ensures { IfOk result (λ text. IsOkAnd lines (λ made. text ≡ string_bytes made)) }
{
    match lines {
        Ok(text) => Ok(Text::of(text)),
        Err(_) => Err(Oom),
    }
}

// The sign of an offset, where 0 has `+`.
pub(crate) fn sign_of(offset: i32) -> &'static str
    ensures { result.now ++ decimal (unsigned_abs offset) ≡ offset_text offset }
{
    if offset < 0 { "-" } else { "+" }
}

// An offset without its sign.
pub(crate) fn size_of(offset: i32) -> u32
    ensures { result ≡ unsigned_abs offset }
{
    offset.unsigned_abs()
}

pub(crate) fn candidate_line(
    alloc: Global,
    offset: i32,
    errors: u32,
    columns: u32,
) -> Result<String, AllocError>
    ensures { IfOk result (λ made. string_bytes made ≡ candidate_line offset errors columns) }
{
    let sign = sign_of(offset);
    let size = size_of(offset);
    format!(in alloc; "offset {sign}{size} errors {errors} columns {columns}\n")
}

pub(crate) fn several_line(alloc: Global, first: i32, second: i32) -> Result<String, AllocError>
    ensures { IfOk result (λ made. string_bytes made ≡ several_line first second) }
{
    let sign = sign_of(first);
    let size = size_of(first);
    let other_sign = sign_of(second);
    let other_size = size_of(second);
    format!(in alloc; "several {sign}{size} {other_sign}{other_size}\n")
}

pub(crate) fn registered_line(
    alloc: Global,
    name: &str,
    sectors: u32,
    npar: u32,
) -> Result<String, AllocError>
    ensures { IfOk result (λ made. string_bytes made ≡ registered_line name.now sectors npar) }
{
    format!(in alloc; "registered {name} sectors {sectors} npar {npar}\n")
}

pub(crate) fn verified_lines(alloc: Global, at: Candidate) -> Result<String, AllocError>
    ensures { IfOk result (λ made. string_bytes made ≡ verified_text at) }
{
    let mut text = candidate_line(alloc, at.offset, at.errors, at.columns)?;
    text.push_str("verified\n")?;
    Ok(text)
}

pub(crate) fn mendable_lines(alloc: Global, at: Candidate) -> Result<String, AllocError>
    ensures { IfOk result (λ made. string_bytes made ≡ mendable_text at) }
{
    let mut text = candidate_line(alloc, at.offset, at.errors, at.columns)?;
    text.push_str("mendable\n")?;
    Ok(text)
}

pub(crate) fn offsets_lines(alloc: Global, found: &[Candidate]) -> Result<String, AllocError>
    ensures { IfOk result (λ made. string_bytes made ≡ offsets_text found.now) }
{
    let mut text = String::new(alloc);
    for at in found {
        let line = candidate_line(alloc, at.offset, at.errors, at.columns)?;
        text.push_str(line.as_str())?;
    }
    Ok(text)
}

// The line of a candidate, and a line of a word and a name.
pub(crate) fn named_lines(
    alloc: Global,
    at: Candidate,
    word: &str,
    name: &str,
) -> Result<String, AllocError>
    ensures { IfOk result (λ made. string_bytes made ≡ line_of at ++ line (word.now ++ codes " " ++ name.now)) }
{
    let mut text = candidate_line(alloc, at.offset, at.errors, at.columns)?;
    text.push_str(word)?;
    text.push_str(" ")?;
    text.push_str(name)?;
    text.push_str("\n")?;
    Ok(text)
}

pub(crate) fn split_line(alloc: Global, folder: &str, tracks: u32) -> Result<String, AllocError>
    ensures { IfOk result (λ made. string_bytes made ≡ split_line folder.now tracks) }
{
    format!(in alloc; "split {folder} tracks {tracks}\n")
}

pub(crate) fn joined_line(alloc: Global, name: &str, sectors: u32) -> Result<String, AllocError>
    ensures { IfOk result (λ made. string_bytes made ≡ joined_line name.now sectors) }
{
    format!(in alloc; "joined {name} sectors {sectors}\n")
}
