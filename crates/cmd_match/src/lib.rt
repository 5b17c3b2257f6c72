//! The command `match`: the matches of a rip's sums, at all offsets, with the response of a database.
#![tactic(auto)]

mod moved;
mod responses;
mod span;

ghost use Rattle.std.specs.Prelude.{◌≡◌, ◌*◌, ◌+◌, ◌<◌, ◌^◌, ℕ, List, length, IfSome, IfOk};
ghost use Rattle.std.specs.Option.{ForSome};
ghost use Rattle.rip_outside.specs.Reading.{OnlyReads};
ghost use Rattle.disc_toc.specs.Toc.{toc_of};
ghost use Rattle.accurip_match.specs.Matching.{AreMatches};
ghost use Rattle.image_mender.specs.Joined.{AreInFiles, joined_words, word_count};
ghost use Rattle.rip_inputs.specs.Opening.{lengths_of};
ghost use Rattle.engine_steps.specs.Steps.{EndsWithCause, ReadsOnly, Takes};
ghost use Rattle.engine_steps.specs.Outcome.{Leaves};
ghost use Rattle.cmd_match.specs.MatchOutcome.{IsMatchOutcome, matched_names};

use crate::moved::{rows_at, slide_over};
use crate::responses::{blocks_of, read_response_file};
use accurip_match::{Matches, Response, found, response_name};
use disc_toc::Layout;
use engine_steps::{Answer, Stop, open_input};
use image_mender::Image;
use rip_inputs::Rip;
use rip_outside::Shelf;
use rip_report::{Report, Status, text_of};
use std::alloc::Global;

// All matches of a rip with a response. Its words are read once for the sums v1 at all offsets, and once for the sums v2
// at each picked one, of which there are at most nine.
fn matches_of<S: Shelf>(
    alloc: Global,
    shelf: &mut S,
    layout: &Layout,
    image: &Image,
    response: &Response,
) -> Result<Matches, Stop>
    requires inside { ForSome (S.held shelf.old) (AreInFiles image.now) }
    requires count { word_count image.now ≡ 1176 * layout.now.sectors }
    requires few { length response.now < 2 ^ 32 }
    ensures matches { IfSome (S.held shelf.old) (λ files. IfOk result (AreMatches (toc_of layout.now) response.now (joined_words image.now files))) }
    ensures only { OnlyReads S.Shelf shelf.old shelf.new }
    ensures cause { ReadsOnly (S.faults shelf.old) (S.faults shelf.new) result }
    ensures taken { Takes (20 * word_count image.now) result (S.taken shelf.old) (S.taken shelf.new) }
{
    let slider = slide_over(alloc, shelf, layout, image)?;
    let picked = slider.picked(alloc, response)?;
    let rows = rows_at(alloc, shelf, layout, image, picked.as_slice())?;
    Ok(found(alloc, &slider, response, rows.as_slice())?)
}

/// Tells the matches of the rip INPUT with the response of its disc, which RESP names, or which has the disc's name in the
/// folder RESP. All bytes that are taken are at most eleven times those of the files that are read.
pub fn match_sums<S: Shelf>(
    alloc: Global,
    shelf: &mut S,
    input: &str,
    resp: &str,
) -> Result<Answer, Stop>
    ensures leaves { IfSome (S.held shelf.old) (λ files. Leaves (IsMatchOutcome input.now resp.now files) files result (S.held shelf.new)) }
    ensures cause { EndsWithCause (S.faults shelf.old) (S.faults shelf.new) result }
    ensures only { OnlyReads S.Shelf shelf.old shelf.new }
    ensures taken { IfSome (S.held shelf.old) (λ files. Takes (11 * lengths_of (matched_names input.now resp.now files) files) result (S.taken shelf.old) (S.taken shelf.new)) }
{
    let Rip { layout, image, .. } = open_input(alloc, shelf, input)?;
    let name = response_name(alloc, resp, &layout)?;
    let bytes = read_response_file(alloc, shelf, name.as_str())?;
    let response = blocks_of(alloc, &bytes)?;
    let list = matches_of(alloc, shelf, &layout, &image, &response)?;
    let text = text_of(alloc, &Report::Matched { list })?;
    Ok(Answer {
        status: Status::Done,
        text,
    })
}
