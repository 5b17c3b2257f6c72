// The lines of a rip's matches with a response.
ghost use Rattle.std.specs.Prelude.{◌≡◌, IfOk};
ghost use Rattle.std.specs.String.{string_bytes};
ghost use Rattle.rip_report.specs.Matches.{block_text, count_line, match_line, matches_text, place_text, sum_name, sum_text};

use crate::texts::{sign_of, size_of};
use accurip_match::Match;
use std::alloc::{AllocError, Global};

// Which of a track's two sums a match is of.
fn sum_name(v2: bool) -> &'static str
    ensures { result.now ≡ sum_name v2 }
{
    if v2 { "v2" } else { "v1" }
}

// Where a match is: the track and the offset.
fn place_text(alloc: Global, track: u32, offset: i32) -> Result<String, AllocError>
    ensures { IfOk result (λ made. string_bytes made ≡ place_text track offset) }
{
    let sign = sign_of(offset);
    let size = size_of(offset);
    format!(in alloc; "match track {track:02} offset {sign}{size}")
}

// What a sum is: its name, and its digits.
fn sum_text(alloc: Global, v2: bool, sum: u32) -> Result<String, AllocError>
    ensures { IfOk result (λ made. string_bytes made ≡ sum_text v2 sum) }
{
    let name = sum_name(v2);
    format!(in alloc; " {name} {sum:08x}\n")
}

// What a block says: its number, and how many rips had the sum.
fn block_text(alloc: Global, block: u32, confidence: u8) -> Result<String, AllocError>
    ensures { IfOk result (λ made. string_bytes made ≡ block_text block confidence) }
{
    format!(in alloc; " block {block} confidence {confidence}")
}

#[tactic(auto, unfolding(crate::specs::Matches::match_line))]
fn match_line(alloc: Global, found: Match) -> Result<String, AllocError>
    ensures { IfOk result (λ made. string_bytes made ≡ match_line found) }
{
    let mut line = place_text(alloc, found.track, found.offset)?;
    let block = block_text(alloc, found.block, found.confidence)?;
    let sum = sum_text(alloc, found.v2, found.sum)?;
    line.push_str(block.as_str())?;
    line.push_str(sum.as_str())?;
    Ok(line)
}

fn count_line(alloc: Global, count: usize) -> Result<String, AllocError>
    ensures { IfOk result (λ made. string_bytes made ≡ count_line count) }
{
    format!(in alloc; "matches {count}\n")
}

pub(crate) fn matches_lines(alloc: Global, list: &[Match]) -> Result<String, AllocError>
    ensures { IfOk result (λ made. string_bytes made ≡ matches_text list.now) }
{
    let mut text = String::new(alloc);
    for found in list {
        let line = match_line(alloc, *found)?;
        text.push_str(line.as_str())?;
    }
    let count = count_line(alloc, list.len())?;
    text.push_str(count.as_str())?;
    Ok(text)
}
