// An image cut into its tracks.
ghost use Rattle.std.specs.Prelude.{◌≡◌, ◌*◌, List, ℕ, All, Contains, IfOk, length, map, sum_by};
ghost use Rattle.rip_outside.specs.Files.{Files};
ghost use Rattle.disc_toc.specs.Toc.{toc_of};
ghost use Rattle.image_mender.specs.Joined.{AreInFiles, joined_words, word_count};
ghost use Rattle.image_mender.specs.declared.image.Part.{Part};
ghost use Rattle.track_split.specs.Cuts.{cut_place, cut_words};

use crate::pieces::Pieces;
use disc_toc::Layout;
use image_mender::Image;
use rip_outside::Oom;
use std::alloc::Global;

/// The words of a sector.
const SECTOR_WORDS: u64 = 1176;

// The sector of the cut before which there are `i` tracks.
fn cut_place(layout: &Layout, i: usize) -> u32
    ensures { result ≡ cut_place (toc_of layout.now) i }
{
    let starts = layout.starts.as_slice();
    if i == 0 {
        0
    } else if i < starts.len() {
        starts[i]
    } else {
        layout.sectors
    }
}

/// The images of a disc's tracks in order, of the image of all its words. The first has what is before the first track
/// too, and each ends where the next one begins.
pub fn cut_tracks(alloc: Global, layout: &Layout, image: &Image) -> Result<Pieces, Oom>
    requires { word_count image.now ≡ 1176 * layout.now.sectors }
    ensures words { (files : Files) → AreInFiles image.now files → IfOk result (λ pieces. map (λ parts. joined_words parts files) pieces ≡ cut_words (toc_of layout.now) (joined_words image.now files)) }
    ensures inside { (files : Files) → AreInFiles image.now files → IfOk result (λ pieces. All (λ parts. AreInFiles parts files) pieces) }
    ensures named { (names : List (List ℕ)) → All (λ (part : Part). Contains names part.name) image.now → IfOk result (λ pieces. All (λ (parts : List Part). All (λ (part : Part). Contains names part.name) parts) pieces) }
    ensures each { IfOk result (λ pieces. length pieces ≡ length layout.now.starts) }
    ensures count { IfOk result (λ pieces. sum_by word_count pieces ≡ word_count image.now) }
{
    let mut list = Vec::new(alloc);
    for i in 0..layout.starts.as_slice().len() {
        let from = SECTOR_WORDS * u64::from(cut_place(layout, i));
        let to = SECTOR_WORDS * u64::from(cut_place(layout, i + 1));
        list.push(image.cut(alloc, from, to - from)?)?;
    }
    Ok(Pieces::of(list))
}
