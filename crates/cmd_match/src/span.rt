// Where the words of a track at an offset stand in a rip.
ghost use Rattle.std.specs.Prelude.{◌≡◌, ◌+◌, ◌-◌, ◌*◌, ◌<◌, ◌≤◌, ◌^◌, ℕ, suc, List, length, pos, negsuc};
ghost use Rattle.accurip_match.specs.Offsets.{IsMatchOffset};
ghost use Rattle.cmd_match.specs.Span.{AreWhole, moved_words, spanned_words};

/// Words of a rip at an offset: silence, a run of the rip's own words, and silence again.
#[derive(Clone, Copy, Debug, PartialEq, Eq)]
pub struct Span {
    /// How many words of silence come first.
    pub before: u64,
    /// Where the rip's own words begin, and where they end.
    pub from: u64,
    pub end: u64,
    /// How many words of silence come last.
    pub after: u64,
}

/// The most words of silence at either end.
pub const MOST_SILENCE: usize = 5878;

impl Span {
    // Where the words from one place to another stand in a rip of so many words, at an offset of so many words after them.
    fn late(begin: u64, end: u64, words: u64, all: u64) -> Span
        requires rises { begin ≤ end }
        requires within { end ≤ all }
        requires few { all < 2 ^ 32 }
        requires offset { words ≤ 5878 }
        requires whole_begin { AreWhole begin }
        requires whole_end { AreWhole end }
        requires whole_move { AreWhole words }
        requires whole_rip { AreWhole all }
        ensures words { (rip : List ℕ) (d : ℕ) → length rip ≡ all → words ≡ 2 * d → moved_words rip (pos d) begin end ≡ spanned_words rip result }
        ensures rises { result.from ≤ result.end }
        ensures within { result.end ≤ all }
        ensures before { result.before ≡ 0 }
        ensures after { result.after ≤ words }
        ensures size { result.end - result.from + result.after ≡ end - begin }
        ensures whole_run { AreWhole (result.end - result.from) }
        ensures whole_after { AreWhole result.after }
    {
        let from = (begin + words).min(all);
        let to = (end + words).min(all);
        Span {
            before: 0,
            from,
            end: to,
            after: end - begin - (to - from),
        }
    }

    // And at an offset of so many words before them.
    fn early(begin: u64, end: u64, words: u64) -> Span
        requires rises { begin ≤ end }
        requires whole_begin { AreWhole begin }
        requires whole_end { AreWhole end }
        requires whole_move { AreWhole words }
        ensures words { (rip : List ℕ) (d : ℕ) → end ≤ length rip → words ≡ 2 * suc d → moved_words rip (negsuc d) begin end ≡ spanned_words rip result }
        ensures rises { result.from ≤ result.end }
        ensures within { result.end ≤ end }
        ensures before { result.before ≤ words }
        ensures after { result.after ≡ 0 }
        ensures size { result.before + (result.end - result.from) ≡ end - begin }
        ensures whole_before { AreWhole result.before }
        ensures whole_run { AreWhole (result.end - result.from) }
    {
        Span {
            before: words.saturating_sub(begin).min(end - begin),
            from: begin.saturating_sub(words),
            end: end.saturating_sub(words),
            after: 0,
        }
    }

    // Where the words from one place to another of a rip of so many words stand at an offset.
    pub(crate) fn of(begin: u64, end: u64, offset: i32, all: u64) -> Span
        requires rises { begin ≤ end }
        requires within { end ≤ all }
        requires few { all < 2 ^ 32 }
        requires offset { IsMatchOffset offset }
        requires whole_begin { AreWhole begin }
        requires whole_end { AreWhole end }
        requires whole_rip { AreWhole all }
        ensures words { (rip : List ℕ) → length rip ≡ all → moved_words rip offset begin end ≡ spanned_words rip result }
        ensures rises { result.from ≤ result.end }
        ensures within { result.end ≤ all }
        ensures before { result.before ≤ 5878 }
        ensures after { result.after ≤ 5878 }
        ensures size { result.before + (result.end - result.from) + result.after ≡ end - begin }
        ensures whole_before { AreWhole result.before }
        ensures whole_run { AreWhole (result.end - result.from) }
        ensures whole_after { AreWhole result.after }
    {
        let words = 2 * u64::from(offset.unsigned_abs());
        if offset < 0 {
            Span::early(begin, end, words)
        } else {
            Span::late(begin, end, words, all)
        }
    }
}
