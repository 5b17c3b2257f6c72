// The offsets that are picked.
ghost use Rattle.std.specs.Prelude.{◌≡◌, ℕ, ◌*◌, ◌<◌, ◌++◌, List, filter, IfOk, OnOk, pos, int_lt};
ghost use Rattle.accurip_match.specs.Offsets.{offset_at};
ghost use Rattle.accurip_match.specs.Picking.{has_v1_match, ids_of, is_other, other_offsets, picked_offsets, with_zero};
ghost use Rattle.accurip_match.specs.Slider.{SliderStandsFor};

use crate::block::{Block, Response};
use crate::edges::PLACES;
use crate::ids::DiscIds;
use crate::slider::Slider;
use rip_basics::Oom;
use std::alloc::Global;
use std::marker::Model;

// The offset 0's place among all.
const MIDDLE: usize = 2939;

// How many other offsets are picked.
const MOST_OTHERS: usize = 8;

/// The picked offsets, rising. Contracts see them as the list.
#[derive(Debug, Drop)]
pub struct Picked {
    list: Vec<i32>,
}

impl Model for Picked {
    ghost use Rattle.std.specs.Prelude.{List, ℤ};

    ghost Value = { List ℤ };

    ghost view = { λ picked. picked.list.items };
}

impl Picked {
    /// The offsets of this list. It takes no memory.
    pub fn of(list: Vec<i32>) -> Self
        ensures { result ≡ list.items }
    {
        Picked { list }
    }

    /// The offsets. It takes no memory.
    pub fn as_slice(&self) -> &[i32]
        ensures { result.now ≡ self.now }
    {
        self.list.as_slice()
    }
}

// The offset that stands at this place among all.
pub(crate) fn offset_of(place: usize) -> i32
    requires { place < 5879 }
    ensures { result ≡ offset_at place }
{
    place as i32 - MIDDLE as i32
}

// Adds the negative ones of these offsets.
fn add_early(list: &mut Vec<i32>, others: &[i32]) -> Result<(), Oom>
    ensures { OnOk result (list.new.items ≡ list.old.items ++ filter (λ d. int_lt d (pos 0)) others.now) }
{
    for d in others {
        if *d < 0 {
            list.push(*d)?;
        }
    }
    Ok(())
}

// Adds the positive ones of these offsets.
fn add_late(list: &mut Vec<i32>, others: &[i32]) -> Result<(), Oom>
    ensures { OnOk result (list.new.items ≡ list.old.items ++ filter (λ d. int_lt (pos 0) d) others.now) }
{
    for d in others {
        if 0 < *d {
            list.push(*d)?;
        }
    }
    Ok(())
}

// 0 among other offsets.
#[tactic(auto, unfolding(crate::specs::Picking::with_zero))]
fn with_zero(alloc: Global, others: &[i32]) -> Result<Vec<i32>, Oom>
    ensures { IfOk result (λ list. list.items ≡ with_zero others.now) }
{
    let mut list = Vec::new(alloc);
    add_early(&mut list, others)?;
    list.push(0)?;
    add_late(&mut list, others)?;
    Ok(list)
}

impl Slider {
    // Whether some track has a match at the offset that stands at this place.
    fn has_match(&self, ids: &DiscIds, blocks: &[Block], place: usize) -> bool
        requires all { self.now.position ≡ 588 * self.now.toc.sectors }
        requires ids { ids.now ≡ ids_of self.now.toc }
        requires place { place < 5879 }
        ensures { (y : List ℕ) → SliderStandsFor self.now y → result ≡ has_v1_match self.now.toc blocks.now y (offset_at place) }
    {
        for before in 0..ids.tracks {
            let track = before + 1;
            if ids.is_known(track, self.v1_at(track, place), blocks) {
                return true;
            }
        }
        false
    }

    // Whether the offset that stands at this place isn't 0, and some track has a match there.
    fn is_other(&self, ids: &DiscIds, blocks: &[Block], place: usize) -> bool
        requires all { self.now.position ≡ 588 * self.now.toc.sectors }
        requires ids { ids.now ≡ ids_of self.now.toc }
        requires place { place < 5879 }
        ensures { (y : List ℕ) → SliderStandsFor self.now y → result ≡ is_other self.now.toc blocks.now y (offset_at place) }
    {
        place != MIDDLE && self.has_match(ids, blocks, place)
    }

    // The first eight such offsets.
    fn others(&self, alloc: Global, ids: &DiscIds, blocks: &[Block]) -> Result<Vec<i32>, Oom>
        requires all { self.now.position ≡ 588 * self.now.toc.sectors }
        requires ids { ids.now ≡ ids_of self.now.toc }
        ensures { IfOk result (λ others. (y : List ℕ) → SliderStandsFor self.now y → others.items ≡ other_offsets self.now.toc blocks.now y) }
    {
        let mut others = Vec::new(alloc);
        for place in 0..PLACES {
            if others.len() < MOST_OTHERS && self.is_other(ids, blocks, place) {
                others.push(offset_of(place))?;
            }
        }
        Ok(others)
    }

    /// The picked offsets, rising, once all words have come: 0, and the first eight others at which some track has the sum
    /// v1 that a block of the disc has for it. Oom for want of memory.
    pub fn picked(&self, alloc: Global, response: &Response) -> Result<Picked, Oom>
        requires { self.now.position ≡ 588 * self.now.toc.sectors }
        ensures { IfOk result (λ picked. (y : List ℕ) → SliderStandsFor self.now y → picked ≡ picked_offsets self.now.toc response.now y) }
    {
        let ids = self.ids();
        let others = self.others(alloc, &ids, response.as_slice())?;
        let list = with_zero(alloc, others.as_slice())?;
        Ok(Picked::of(list))
    }
}
