// The seal of an image's words.
ghost use Rattle.std.specs.Prelude.{◌≡◌, ◌⊎◌, IsTrue, IsFalse, replicate, ℕ, ◌+◌, ◌*◌, ◌%◌, ◌<◌, ◌≤◌, List, [], ◌++◌, All, length, slice_range, IfOk, IfSome, IsErr, OnOk};
ghost use Rattle.std.specs.Option.{ForSome};
ghost use Rattle.std.specs.List.Sorted.{IsStrictlyIncreasing};
ghost use Rattle.rip_outside.specs.Causes.{HasCause};
ghost use Rattle.rip_outside.specs.Reading.{OnlyReads};
ghost use Rattle.rip_outside.specs.declared.fault.ShelfCall.{ShelfCall};
ghost use Rattle.column_map.specs.Mending.{places};
ghost use Rattle.image_mender.specs.Joined.{AreInFiles, joined_words, word_count};
ghost use Rattle.image_mender.specs.Patched.{AreBelow, patched};
ghost use Rattle.image_mender.specs.Seal.{Seals, seal_of_words};

use crate::Image;
use crate::patching::fix_piece;
use byteorder::{ByteOrder, LittleEndian};
use column_map::Fix;
use rip_outside::{Fault, Shelf};
use sha2::{Digest, Sha256};

/// The seal of words that are all one, so many times.
#[derive(Drop, Clone, Copy)]
pub struct RunSeal {
    word: u16,
    count: u64,
    seal: [u8; 32],
    ghost valid: { seal ≡ seal_of_words (replicate count word) },
}

/// A seal in the making: the SHA-256 of the words so far, low byte first. A run of one word, such as silence, is counted, and
/// hashed once another word comes.
#[derive(Drop)]
pub struct Sealer {
    hasher: Sha256,
    // the word that stands so many times behind what was hashed
    word: u16,
    behind: u64,
    // nothing was hashed so far
    is_run: bool,
}

impl RunSeal {
    // The seal of a word, so many times.
    fn of(word: u16, count: u64) -> RunSeal
        ensures word { result.word ≡ word }
        ensures count { result.count ≡ count }
    {
        let run = Sealer {
            hasher: Sha256::new(),
            word,
            behind: count,
            is_run: true,
        };
        RunSeal {
            word,
            count,
            seal: run.finish(),
        }
    }
}

// As many words of a run as are hashed at once.
const RUN: usize = 512;

// Whether all words are this one.
fn are_all(words: &[u16], word: u16) -> bool
    ensures { IsTrue result → words.now ≡ replicate (length words.now) word }
{
    words.iter().all(|next| *next == word)
}

impl Sealer {
    /// A seal of no words yet.
    pub fn new() -> Self
        ensures { Seals result [] }
    {
        Sealer {
            hasher: Sha256::new(),
            word: 0,
            behind: 0,
            is_run: true,
        }
    }

    // The word that goes on with the run, of which one is `next`.
    fn run_word(&self, next: u16) -> u16
        ensures runs { self.now.behind ≡ 0 ⊎ result ≡ self.now.word }
    {
        if self.behind == 0 { next } else { self.word }
    }

    // Counts the words, where they go on with the run.
    fn count(&mut self, words: &[u16]) -> bool
        ensures counted { (y : List ℕ) → IsTrue result → Seals self.old y → Seals self.new (y ++ words.now) }
        ensures other { IsFalse result → self.new ≡ self.old }
    {
        let [first, ..] = words else {
            return true;
        };
        let word = self.run_word(*first);
        match self.behind.checked_add(words.len() as u64) {
            Some(behind) if are_all(words, word) => {
                self.word = word;
                self.behind = behind;
                true
            }
            _ => false,
        }
    }

    // Hashes the run.
    fn flush(&mut self)
        ensures seals { (y : List ℕ) → Seals self.old y → Seals self.new y }
        ensures none { self.new.behind ≡ 0 }
        ensures hashed { IsFalse self.new.is_run }
    {
        let run = [self.word; RUN];
        let mut bytes = [0u8; 2 * RUN];
        self.is_run = false;
        'runs: while self.behind > 0 {
            let count = self.behind.min(RUN as u64) as usize;
            let room = &mut bytes[..2 * count];
            LittleEndian::write_u16_into(&run[..count], room);
            self.hasher.update(&*room);
            self.behind -= count as u64;
        }
    }

    /// Adds words, by way of the front of `bytes`, which holds any bytes afterwards. It takes no memory.
    pub fn absorb(&mut self, words: &[u16], bytes: &mut [u8])
        requires room { 2 * length words.now ≤ length bytes.old }
        ensures { (y : List ℕ) → Seals self.old y → Seals self.new (y ++ words.now) }
    {
        if self.count(words) {
            return;
        }
        self.flush();
        let room = &mut bytes[..2 * words.len()];
        LittleEndian::write_u16_into(words, room);
        self.hasher.update(&*room);
    }

    /// The seal of all the words.
    pub fn finish(mut self) -> [u8; 32]
        ensures { (y : List ℕ) → Seals self y → result ≡ seal_of_words y }
    {
        self.flush();
        self.hasher.finalize()
    }

    /// The seal of all the words. Where they are one run, its seal is kept, and that of the run that was kept last isn't
    /// hashed again.
    pub fn finish_kept(self, kept: &mut Option<RunSeal>) -> [u8; 32]
        ensures { (y : List ℕ) → Seals self y → result ≡ seal_of_words y }
    {
        if !self.is_run {
            return self.finish();
        }
        let (word, count) = (self.word, self.behind);
        match *kept {
            Some(run) if run.word == word && run.count == count => run.seal,
            _ => {
                let run = RunSeal::of(word, count);
                *kept = Some(run);
                run.seal
            }
        }
    }
}

// Adds the mended words of a piece that begins at the word `at`, and answers how many fixes lie before the piece's
// end. `next` lie before its beginning.
fn seal_piece<S: Shelf>(
    shelf: &mut S,
    image: &Image,
    fixes: &[Fix],
    next: usize,
    at: u64,
    sealer: &mut Sealer,
    buf: &mut [u16],
    scratch: &mut [u8],
) -> Result<usize, Fault>
    requires within { at + length buf.old ≤ word_count image.now }
    requires few { word_count image.now ≤ 523908000 }
    requires bytes { 0 < length scratch.old }
    requires pairs { length scratch.old % 2 ≡ 0 }
    requires room { 2 * length buf.old ≤ length scratch.old }
    requires rising { IsStrictlyIncreasing (places fixes.now) }
    requires before { AreBelow fixes.now next at }
    requires inside { ForSome (S.held shelf.old) (AreInFiles image.now) }
    ensures before { IfOk result (λ next. AreBelow fixes.now next (at + length buf.old)) }
    ensures absorbed { (y : List ℕ) → Seals sealer.old y → IfSome (S.held shelf.old) (λ files. OnOk result (Seals sealer.new (y ++ slice_range (patched fixes.now (joined_words image.now files)) at (at + length buf.old)))) }
    ensures only { OnlyReads S.Shelf shelf.old shelf.new }
    ensures cause { HasCause ShelfCall.ReadAt (S.faults shelf.old) (S.faults shelf.new) (IsErr result) }
    ensures taken { OnOk result (S.taken shelf.new ≤ S.taken shelf.old + 2 * length buf.old) }
{
    image.read(shelf, at, buf, scratch)?;
    let after = fix_piece(fixes, next, at, buf);
    sealer.absorb(buf, scratch);
    Ok(after)
}

/// The seal of the image's words from number `first` on, `words` of them, each exclusive-ored with the flip of the fix
/// at its place. Words go through `buf`, as many at a time as it has room for, and bytes through `scratch`; both hold
/// anything afterwards. Words that are all one, and as many as those whose seal was kept, aren't hashed again. It takes no
/// memory, only reads, and takes two bytes of the shelf for each word.
pub fn seal_of<S: Shelf>(
    shelf: &mut S,
    image: &Image,
    first: u64,
    words: u64,
    fixes: &[Fix],
    buf: &mut [u16],
    scratch: &mut [u8],
    kept: &mut Option<RunSeal>,
) -> Result<[u8; 32], Fault>
    requires within { first + words ≤ word_count image.now }
    requires rising { IsStrictlyIncreasing (places fixes.now) }
    requires lie { All (λ place. (first ≤ place) × (place < first + words)) (places fixes.now) }
    requires some { 0 < length buf.old }
    requires room { 2 * length buf.old ≤ length scratch.old }
    requires pairs { length scratch.old % 2 ≡ 0 }
    requires inside { ForSome (S.held shelf.old) (AreInFiles image.now) }
    ensures seal { IfSome (S.held shelf.old) (λ files. IfOk result (λ seal. seal ≡ seal_of_words (slice_range (patched fixes.now (joined_words image.now files)) first (first + words)))) }
    ensures only { OnlyReads S.Shelf shelf.old shelf.new }
    ensures cause { HasCause ShelfCall.ReadAt (S.faults shelf.old) (S.faults shelf.new) (IsErr result) }
    ensures taken { OnOk result (S.taken shelf.new ≤ S.taken shelf.old + 2 * words) }
{
    // An image has few words, so no sum overflows.
    let all = image.words();
    prove!(first + words <= all);
    let end = first + words;
    let mut sealer = Sealer::new();
    let mut at = first;
    let mut next = 0;
    'pieces: while at < end {
        let count = (end - at).min(buf.len() as u64) as usize;
        next = seal_piece(
            shelf,
            image,
            fixes,
            next,
            at,
            &mut sealer,
            &mut buf[..count],
            scratch,
        )?;
        at += count as u64;
    }
    Ok(sealer.finish_kept(kept))
}
