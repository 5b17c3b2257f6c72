// The ids by which a block knows a disc.
ghost use Rattle.std.specs.Prelude.{◌≡◌, ◌≤◌};
ghost use Rattle.std.specs.List.{list_any};
ghost use Rattle.disc_toc.specs.Toc.{toc_of};
ghost use Rattle.accurip_match.specs.Picking.{has_sum, ids_of, is_of_disc};

use crate::block::Block;
use disc_ids::{accurip_ids, freedb_id};
use disc_toc::Layout;

/// A disc's ids at AccurateRip and at FreeDB, and how many tracks it has.
#[derive(Clone, Copy, Debug, PartialEq, Eq)]
pub struct DiscIds {
    pub id1: u32,
    pub id2: u32,
    pub freedb: u32,
    pub tracks: u32,
}

impl DiscIds {
    // Those of a disc of this layout.
    pub(crate) fn of(layout: &Layout) -> DiscIds
        ensures { result ≡ ids_of (toc_of layout.now) }
    {
        let (id1, id2) = accurip_ids(layout);
        DiscIds {
            id1,
            id2,
            freedb: freedb_id(layout),
            tracks: layout.starts.as_slice().len() as u32,
        }
    }

    // Whether a block is this disc's.
    fn fit(&self, block: &Block) -> bool
        ensures { result ≡ is_of_disc self.now block.now }
    {
        block.id1 == self.id1
            && block.id2 == self.id2
            && block.freedb == self.freedb
            && block.entries.as_slice().len() == self.tracks as usize
    }

    // Whether a block is this disc's and has this sum for a track of it.
    pub(crate) fn has_sum(&self, track: u32, sum: u32, block: &Block) -> bool
        requires first { 1 ≤ track }
        requires last { track ≤ self.now.tracks }
        ensures { result ≡ has_sum self.now track sum block.now }
    {
        sum != 0 && self.fit(block) && block.entries.as_slice()[track as usize - 1].sum == sum
    }

    // Whether some block is this disc's and has this sum for a track of it.
    pub(crate) fn is_known(&self, track: u32, sum: u32, blocks: &[Block]) -> bool
        requires first { 1 ≤ track }
        requires last { track ≤ self.now.tracks }
        ensures { result ≡ list_any (has_sum self.now track sum) blocks.now }
    {
        blocks.iter().any(|block| self.has_sum(track, sum, block))
    }
}
