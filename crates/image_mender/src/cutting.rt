// A run of an image's words as an image of its own.
ghost use Rattle.std.specs.Prelude.{◌≡◌, ◌+◌, ◌≤◌, List, ℕ, All, Contains, IfOk, slice_range};
ghost use Rattle.rip_outside.specs.Files.{Files};
ghost use Rattle.image_mender.specs.Joined.{AreInFiles, joined_words, word_count};

use crate::{Image, Part};
use rip_outside::{Name, Oom};
use std::alloc::Global;

impl Image {
    ghost use Rattle.image_mender.specs.declared.image.Part.{Part};

    /// The image of the words from the word `from` on, `words` of them. It has the same files: of each part those of
    /// these words that stand in it, and none of a part that has none of them.
    pub fn cut(&self, alloc: Global, from: u64, words: u64) -> Result<Image, Oom>
        requires within { from + words ≤ word_count self.now }
        ensures words { (files : Files) → AreInFiles self.now files → IfOk result (λ cut. joined_words cut files ≡ slice_range (joined_words self.now files) from (from + words)) }
        ensures inside { (files : Files) → AreInFiles self.now files → IfOk result (λ cut. AreInFiles cut files) }
        ensures count { IfOk result (λ cut. word_count cut ≡ words) }
        ensures named { (names : List (List ℕ)) → All (λ (part : Part). Contains names part.name) self.now → IfOk result (λ cut. All (λ (part : Part). Contains names part.name) cut) }
    {
        let mut skip = from;
        let mut left = words;
        let mut parts = Vec::new(alloc);
        for part in self.parts() {
            let before = skip.min(part.words);
            let count = (part.words - before).min(left);
            parts.push(Part {
                name: Name::copied(alloc, part.name.as_str())?,
                data_at: part.data_at + 2 * before,
                words: count,
            })?;
            skip -= before;
            left -= count;
        }
        Ok(Image::of(parts))
    }
}
