// The edges of tracks, and the notes of sums up to them.
ghost use Rattle.std.specs.Prelude.{◌≡◌, ◌+◌, ◌*◌, ◌^◌, ◌<◌, ◌≤◌, length};
ghost use Rattle.disc_toc.specs.Toc.{toc_of};
ghost use Rattle.accurip_match.specs.Slider.{IsCalm, Notes, edge_of};

use disc_toc::Layout;

// How many offsets there are.
pub(crate) const PLACES: usize = 5879;

// How many samples of the first track don't count, and how many of the last.
const FIRST_MARGIN: u32 = 2939;

const LAST_MARGIN: u32 = 2940;

// The samples of a sector.
const SECTOR_SAMPLES: u32 = 588;

// Where the samples that count of track `j` end at the least offset, and those of track `j + 1` begin.
#[tactic(auto, unfolding(crate::specs::Slider::edge_of))]
pub(crate) fn edge_at(layout: &Layout, j: usize) -> u32
    requires { j ≤ length layout.now.starts }
    ensures edge { result ≡ edge_of (toc_of layout.now) j }
    ensures on_disc { result ≤ 262000000 }
{
    let starts = layout.starts.as_slice();
    if j == 0 {
        SECTOR_SAMPLES * starts[0] + FIRST_MARGIN
    } else if j < starts.len() {
        SECTOR_SAMPLES * starts[j]
    } else {
        (SECTOR_SAMPLES * layout.sectors).saturating_sub(LAST_MARGIN)
    }
}

// How many samples after the first ones, so many, come before one that ends at an edge at some offset, but no more
// than the limit.
pub(crate) fn calm_after(layout: &Layout, place: u32, limit: usize) -> usize
    requires { place + 1 < 2 ^ 32 }
    ensures within { result ≤ limit }
    ensures calm { IsCalm (toc_of layout.now) place (place + result + 1) }
{
    let mut calm = limit;
    for j in 0..layout.starts.as_slice().len() + 1 {
        let edge = edge_at(layout, j);
        if place < edge + PLACES as u32 - 1 {
            calm = calm.min(edge.saturating_sub(place + 1) as usize);
        }
    }
    calm
}

// Notes a sum for each edge that lies at this place at some offset.
pub(crate) fn note(layout: &Layout, place: u32, sum: u32, notes: &mut [u32])
    requires { length notes.old ≡ 5879 * (length layout.now.starts + 1) }
    ensures { Notes (toc_of layout.now) place sum notes.old notes.new }
{
    for j in 0..layout.starts.as_slice().len() + 1 {
        let edge = edge_at(layout, j);
        if edge <= place && place - edge < PLACES as u32 {
            notes[PLACES * j + (place - edge) as usize] = sum;
        }
    }
}
