// All matches of a rip with a response.
ghost use Rattle.std.specs.Prelude.{◌≡◌, ℕ, ◌+◌, ◌*◌, ◌^◌, ◌<◌, ◌≤◌, ◌++◌, List, length, false, IfOk, OnOk};
ghost use Rattle.disc_toc.specs.Toc.{Toc};
ghost use Rattle.accurip_match.specs.Matching.{AreMatches, block_matches, match_of, offset_matches, place_matches, response_matches, track_matches, v2_matches, v2_rows, v2_where_picked};
ghost use Rattle.accurip_match.specs.Offsets.{all_offsets, offset_at};
ghost use Rattle.accurip_match.specs.Picking.{ids_of};
ghost use Rattle.accurip_match.specs.Slider.{SliderStandsFor};
ghost use Rattle.accurip_match.specs.declared.block.Block.{Block};

use crate::block::{Block, Response};
use crate::edges::PLACES;
use crate::ids::DiscIds;
use crate::picking::offset_of;
use crate::slider::Slider;
use accurip_sums::SumList;
use rip_basics::Oom;
use std::alloc::Global;
use std::marker::Model;

/// A sum of a track at an offset that a block has for it.
#[derive(Clone, Copy, Debug, PartialEq, Eq)]
pub struct Match {
    /// The track, counted from 1.
    pub track: u32,
    /// The offset in samples.
    pub offset: i32,
    /// The block, counted from 1.
    pub block: u32,
    /// How many rips had the sum.
    pub confidence: u8,
    /// Whether it is the track's sum v2, or its sum v1.
    pub v2: bool,
    pub sum: u32,
}

/// Matches, by track, offset and block, v1 before v2. Contracts see them as the list.
#[derive(Debug, Drop)]
pub struct Matches {
    list: Vec<Match>,
}

impl Model for Matches {
    ghost use Rattle.std.specs.Prelude.{List};
    ghost use Rattle.accurip_match.specs.declared.listing.Match.{Match};

    ghost Value = { List Match };

    ghost view = { λ matches. matches.list.items };
}

impl Matches {
    /// The matches of this list. It takes no memory.
    pub fn of(list: Vec<Match>) -> Self
        ensures { result ≡ list.items }
    {
        Matches { list }
    }

    /// The matches. It takes no memory.
    pub fn as_slice(&self) -> &[Match]
        ensures { result.now ≡ self.now }
    {
        self.list.as_slice()
    }
}

/// The sums of all tracks at an offset, first track first.
#[derive(Debug, Drop)]
pub struct V2Row {
    pub offset: i32,
    pub sums: SumList,
}

// A sum of a track at an offset.
#[derive(Clone, Copy)]
pub struct Sought {
    pub track: u32,
    pub offset: i32,
    pub v2: bool,
    pub sum: u32,
}

// Adds the match of a sum with the block of this number, if there is one.
fn add_match(
    list: &mut Vec<Match>,
    ids: &DiscIds,
    sought: Sought,
    number: u32,
    block: &Block,
) -> Result<(), Oom>
    requires first { 1 ≤ sought.track }
    requires last { sought.track ≤ ids.now.tracks }
    ensures { OnOk result (list.new.items ≡ list.old.items ++ match_of ids.now sought (number, block.now)) }
{
    if ids.has_sum(sought.track, sought.sum, block) {
        list.push(Match {
            track: sought.track,
            offset: sought.offset,
            block: number,
            confidence: block.entries.as_slice()[sought.track as usize - 1].confidence,
            v2: sought.v2,
            sum: sought.sum,
        })?;
    }
    Ok(())
}

// Adds the match with the block of this number of the sum v2 of the track that `v1` is of, at its offset, where it is
// sought.
fn add_v2(
    list: &mut Vec<Match>,
    ids: &DiscIds,
    v1: Sought,
    v2: Option<u32>,
    number: u32,
    block: &Block,
) -> Result<(), Oom>
    requires first { 1 ≤ v1.track }
    requires last { v1.track ≤ ids.now.tracks }
    ensures { OnOk result (list.new.items ≡ list.old.items ++ v2_matches ids.now v1.track v1.offset v2 (number, block.now)) }
{
    if let Some(sum) = v2 {
        let sought = Sought {
            track: v1.track,
            offset: v1.offset,
            v2: true,
            sum,
        };
        add_match(list, ids, sought, number, block)?;
    }
    Ok(())
}

// Adds the matches with this block of a track at an offset.
fn add_block(
    list: &mut Vec<Match>,
    ids: &DiscIds,
    v1: Sought,
    v2: Option<u32>,
    number: u32,
    block: &Block,
) -> Result<(), Oom>
    requires first { 1 ≤ v1.track }
    requires last { v1.track ≤ ids.now.tracks }
    requires kind { v1.v2 ≡ false }
    ensures { OnOk result (list.new.items ≡ list.old.items ++ block_matches ids.now v1.track v1.offset v1.sum v2 (number, block.now)) }
{
    add_match(list, ids, v1, number, block)?;
    add_v2(list, ids, v1, v2, number, block)
}

// Adds those with all blocks.
#[tactic(auto, unfolding(crate::specs::Matching::offset_matches))]
fn add_blocks(
    list: &mut Vec<Match>,
    ids: &DiscIds,
    v1: Sought,
    v2: Option<u32>,
    blocks: &[Block],
) -> Result<(), Oom>
    requires first { 1 ≤ v1.track }
    requires last { v1.track ≤ ids.now.tracks }
    requires kind { v1.v2 ≡ false }
    requires few { length blocks.now < 2 ^ 32 }
    ensures { OnOk result (list.new.items ≡ list.old.items ++ offset_matches ids.now blocks.now v1.track v1.offset v1.sum v2) }
{
    for i in 0..blocks.len() {
        add_block(list, ids, v1, v2, i as u32 + 1, &blocks[i])?;
    }
    Ok(())
}

// The sum v2 of a track in the row of this offset, if there is one.
fn v2_of(rows: &[V2Row], track: u32, offset: i32) -> Option<u32>
    requires { 1 ≤ track }
    ensures { (toc : Toc) (blocks : List Block) (y : List ℕ) → track ≤ length toc.starts → rows.now ≡ v2_rows toc blocks y → result ≡ v2_where_picked toc blocks y track offset }
{
    for row in rows {
        if row.offset == offset {
            return match row.sums.as_slice().get(track as usize - 1) {
                Some(sums) => Some(sums.v2),
                None => None,
            };
        }
    }
    None
}

// Adds the matches of a track at the offset that stands at this place.
fn add_place(
    list: &mut Vec<Match>,
    slider: &Slider,
    ids: &DiscIds,
    blocks: &[Block],
    rows: &[V2Row],
    track: u32,
    place: usize,
) -> Result<(), Oom>
    requires all { slider.now.position ≡ 588 * slider.now.toc.sectors }
    requires ids { ids.now ≡ ids_of slider.now.toc }
    requires few { length blocks.now < 2 ^ 32 }
    requires first { 1 ≤ track }
    requires last { track ≤ length slider.now.toc.starts }
    requires place { place < 5879 }
    ensures { OnOk result ((y : List ℕ) → SliderStandsFor slider.now y → rows.now ≡ v2_rows slider.now.toc blocks.now y → list.new.items ≡ list.old.items ++ place_matches slider.now.toc blocks.now y track (offset_at place)) }
{
    let offset = offset_of(place);
    let v1 = Sought {
        track,
        offset,
        v2: false,
        sum: slider.v1_at(track, place),
    };
    add_blocks(list, ids, v1, v2_of(rows, track, offset), blocks)?;
    Ok(())
}

// Adds those at all offsets.
fn add_track(
    list: &mut Vec<Match>,
    slider: &Slider,
    ids: &DiscIds,
    blocks: &[Block],
    rows: &[V2Row],
    track: u32,
) -> Result<(), Oom>
    requires all { slider.now.position ≡ 588 * slider.now.toc.sectors }
    requires ids { ids.now ≡ ids_of slider.now.toc }
    requires few { length blocks.now < 2 ^ 32 }
    requires first { 1 ≤ track }
    requires last { track ≤ length slider.now.toc.starts }
    ensures { OnOk result ((y : List ℕ) → SliderStandsFor slider.now y → rows.now ≡ v2_rows slider.now.toc blocks.now y → list.new.items ≡ list.old.items ++ track_matches slider.now.toc blocks.now y all_offsets track) }
{
    for place in 0..PLACES {
        add_place(list, slider, ids, blocks, rows, track, place)?;
    }
    Ok(())
}

/// All matches of a rip all of whose words have come with a response, by track, offset and block, v1 before v2: each sum v1
/// of a track at any offset, and each sum v2 at a picked one, that a block of the disc has for the track and that isn't 0.
/// The rows have the sums of all tracks at each picked offset, in their order. Oom for want of memory.
pub fn found(
    alloc: Global,
    slider: &Slider,
    response: &Response,
    v2: &[V2Row],
) -> Result<Matches, Oom>
    requires all { slider.now.position ≡ 588 * slider.now.toc.sectors }
    requires few { length response.now < 2 ^ 32 }
    ensures list { IfOk result (λ matches. (y : List ℕ) → SliderStandsFor slider.now y → v2.now ≡ v2_rows slider.now.toc response.now y → matches ≡ response_matches slider.now.toc response.now y) }
    ensures matches { IfOk result (λ matches. (y : List ℕ) → SliderStandsFor slider.now y → v2.now ≡ v2_rows slider.now.toc response.now y → AreMatches slider.now.toc response.now y matches) }
{
    let ids = slider.ids();
    let blocks = response.as_slice();
    let mut list = Vec::new(alloc);
    for before in 0..ids.tracks {
        add_track(&mut list, slider, &ids, blocks, v2, before + 1)?;
    }
    Ok(Matches::of(list))
}
