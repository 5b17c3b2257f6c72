// The sums of all tracks of a rip at all offsets, from one pass over its words.
ghost use Rattle.std.specs.Prelude.{◌≡◌, ℕ, ◌+◌, ◌-◌, ◌*◌, ◌/◌, ◌%◌, ◌<◌, ◌≤◌, ◌++◌, List, [], length, map, IfOk};
ghost use Rattle.disc_toc.specs.Toc.{toc_of};
ghost use Rattle.accurip_match.specs.Offsets.{all_offsets, offset_at};
ghost use Rattle.accurip_match.specs.Picking.{ids_of};
ghost use Rattle.accurip_match.specs.Shifted.{v1_at};
ghost use Rattle.accurip_match.specs.Slider.{IsCalm, SliderStandsFor, edge_of, prefix_of};

use crate::edges::{PLACES, calm_after, edge_at, note};
use crate::ids::DiscIds;
use crate::prefix::Prefix;
use disc_toc::{Layout, Starts99};
use rip_basics::Oom;
use std::alloc::Global;
use std::marker::Model;

// The samples of silence before a rip: as many as it is early at the least offset.
const LEAD: u32 = 2939;

/// A rip of which a part has come, and from which the sums of its tracks at all offsets are had once all of it has. It is
/// seen as the disc's table of contents, how many samples have come, and the sums of samples that it keeps.
#[derive(Drop)]
pub struct Slider {
    layout: Layout,
    position: u32,
    prefix: Prefix,
    values: Vec<u32>,
    products: Vec<u32>,
}

impl Model for Slider {
    ghost use Rattle.std.specs.Prelude.{◌≡◌, ◌+◌, ◌*◌, length, vec_len};
    ghost use Rattle.disc_toc.specs.Toc.{toc_of};
    ghost use Rattle.accurip_match.specs.Slider.{KeptSlider};

    ghost Value = { KeptSlider };

    ghost view = { λ slider. record { toc = toc_of slider.layout; position = slider.position; prefix = slider.prefix; values = slider.values.items; products = slider.products.items } };

    ghost invariant = { λ slider. (vec_len slider.values ≡ 5879 * (length slider.layout.starts + 1)) × (vec_len slider.products ≡ 5879 * (length slider.layout.starts + 1)) };
}

// A layout that says the same.
fn copy_of(alloc: Global, layout: &Layout) -> Result<Layout, Oom>
    ensures { IfOk result (λ copy. toc_of copy ≡ toc_of layout.now) }
{
    let starts = Vec::from_slice(alloc, layout.starts.as_slice())?;
    Ok(Layout {
        pregap: layout.pregap,
        starts: Starts99::of(starts),
        sectors: layout.sectors,
    })
}

impl Slider {
    /// A slider for a rip of a disc of this layout, none of whose words has come, or Oom for want of memory. All its memory
    /// is taken here: 47,032 bytes for each track, and as many for one more.
    pub fn new(alloc: Global, layout: &Layout) -> Result<Slider, Oom>
        ensures toc { IfOk result (λ slider. slider.toc ≡ toc_of layout.now) }
        ensures position { IfOk result (λ slider. slider.position ≡ 0) }
        ensures stands { IfOk result (λ slider. SliderStandsFor slider []) }
    {
        let layout = copy_of(alloc, layout)?;
        let notes = PLACES * (layout.starts.as_slice().len() + 1);
        let values = vec![in alloc; 0u32; notes]?;
        let products = vec![in alloc; 0u32; notes]?;
        Ok(Slider {
            layout,
            position: 0,
            prefix: Prefix {
                values: 0,
                products: 0,
            },
            values,
            products,
        })
    }

    // Takes the next samples in, of which no one but the last ends at an edge at some offset.
    fn absorb_calm(&mut self, words: &[u16])
        requires whole { length words.now % 2 ≡ 0 }
        requires room { 2 * self.old.position + length words.now ≤ 1176 * self.old.toc.sectors }
        requires calm { IsCalm self.old.toc (self.old.position + 2939) (self.old.position + 2939 + length words.now / 2) }
        ensures toc { self.new.toc ≡ self.old.toc }
        ensures position { 2 * self.new.position ≡ 2 * self.old.position + length words.now }
        ensures stands { (y : List ℕ) → SliderStandsFor self.old y → SliderStandsFor self.new (y ++ words.now) }
    {
        self.prefix = self.prefix.with_words(self.position + LEAD, words);
        self.position += (words.len() / 2) as u32;
        let place = self.position + LEAD;
        note(&self.layout, place, self.prefix.values, &mut self.values);
        note(
            &self.layout,
            place,
            self.prefix.products,
            &mut self.products,
        );
    }

    /// Takes the next words of the rip in, a left and a right word for each sample, of which there are no more in all than
    /// the disc has. It takes no memory.
    pub fn absorb(&mut self, words: &[u16])
        requires whole { length words.now % 2 ≡ 0 }
        requires room { 2 * self.old.position + length words.now ≤ 1176 * self.old.toc.sectors }
        ensures toc { self.new.toc ≡ self.old.toc }
        ensures position { 2 * self.new.position ≡ 2 * self.old.position + length words.now }
        ensures stands { (y : List ℕ) → SliderStandsFor self.old y → SliderStandsFor self.new (y ++ words.now) }
    {
        let count = words.len() / 2;
        let mut at = 0;
        'samples: while at < count {
            let calm = calm_after(&self.layout, self.position + LEAD, count - at - 1);
            let end = at + calm + 1;
            self.absorb_calm(&words[2 * at..2 * end]);
            at = end;
        }
    }

    // The ids by which a block knows the disc.
    pub(crate) fn ids(&self) -> DiscIds
        ensures { result ≡ ids_of self.now.toc }
    {
        DiscIds::of(&self.layout)
    }

    // The sums up to an edge at the offset that stands at this place.
    fn prefix_at(&self, j: usize, place: usize) -> Prefix
        requires all { self.now.position ≡ 588 * self.now.toc.sectors }
        requires edge { j ≤ length self.now.toc.starts }
        requires place { place < 5879 }
        ensures { (y : List ℕ) → SliderStandsFor self.now y → result ≡ prefix_of y (edge_of self.now.toc j + place) }
    {
        let edge = edge_at(&self.layout, j) as usize;
        if edge + place <= (self.position + LEAD) as usize {
            Prefix {
                values: self.values[PLACES * j + place],
                products: self.products[PLACES * j + place],
            }
        } else {
            self.prefix
        }
    }

    // The track's sum v1 at the offset that stands at this place.
    pub(crate) fn v1_at(&self, track: u32, place: usize) -> u32
        requires all { self.now.position ≡ 588 * self.now.toc.sectors }
        requires first { 1 ≤ track }
        requires last { track ≤ length self.now.toc.starts }
        requires place { place < 5879 }
        ensures { (y : List ℕ) → SliderStandsFor self.now y → result ≡ v1_at self.now.toc y track (offset_at place) }
    {
        let before = track as usize - 1;
        let starts = self.layout.starts.as_slice();
        if edge_at(&self.layout, before + 1) <= edge_at(&self.layout, before) {
            return 0;
        }
        let low = self.prefix_at(before, place);
        let high = self.prefix_at(before + 1, place);
        low.sum_to(high, 588 * starts[before] + place as u32)
    }

    /// Writes the sums v1 of a track, counted from 1, at all offsets from -2,939 samples on, once all words have come. It
    /// takes no memory.
    pub fn row(&self, track: u32, into: &mut [u32])
        requires all { self.now.position ≡ 588 * self.now.toc.sectors }
        requires first { 1 ≤ track }
        requires last { track ≤ length self.now.toc.starts }
        requires room { length into.old ≡ 5879 }
        ensures { (y : List ℕ) → SliderStandsFor self.now y → into.new ≡ map (v1_at self.now.toc y track) all_offsets }
    {
        for place in 0..PLACES {
            into[place] = self.v1_at(track, place);
        }
    }
}
