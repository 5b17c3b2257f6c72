// The lines of a text, and the words of a line.
ghost use Rattle.std.specs.Prelude.{◌≡◌, ◌==◌, ◌<◌, ◌≤◌, ◌+◌, ◌∷◌, length, drop};
ghost use Rattle.std.specs.List.{before_first, after_first, position_or_len, prefix_len, suffix_len};
ghost use Rattle.cue_sheet.specs.Lines.{is_blank, without_mark, without_return, trim_start, trim_end, word_of, after_word, lines_of};

fn is_blank(byte: u8) -> bool
    ensures { result ≡ is_blank byte }
{
    byte == b' ' || byte == b'\t'
}

// A text without the mark of UTF-8 that it may begin with.
#[tactic(auto, unfolding(crate::specs::Lines::without_mark))]
pub fn without_mark(text: &[u8]) -> &[u8]
    ensures value { result.now ≡ without_mark text.now }
    ensures within { length result.now ≤ length text.now }
{
    match text.strip_prefix(b"\xEF\xBB\xBF") {
        Some(rest) => rest,
        None => text,
    }
}

// A line without one CR at its end.
#[tactic(auto, unfolding(crate::specs::Lines::without_return))]
pub fn without_return(line: &[u8]) -> &[u8]
    ensures { result.now ≡ without_return line.now }
{
    match line.strip_suffix(b"\r") {
        Some(text) => text,
        None => line,
    }
}

// How many bytes a text has before the first of such a byte, or in all where there is none.
#[tactic(auto, using(crate::proofs::LineLaws::prefix_within))]
fn len_before(text: &[u8], mark: u8) -> usize
    ensures value { result ≡ position_or_len (λ byte. byte == mark) text.now }
    ensures within { result ≤ length text.now }
{
    text.iter().take_while(|byte| **byte != mark).count()
}

// A text after its first bytes and one more, if there are so many.
fn after(text: &[u8], len: usize) -> &[u8]
    requires { len ≤ length text.now }
    ensures { result.now ≡ drop (len + 1) text.now }
{
    if len < text.len() {
        &text[len + 1..]
    } else {
        &[]
    }
}

// What stands before the first of such a byte, and after it: everything and nothing where there is none.
pub fn split(text: &[u8], mark: u8) -> (&[u8], &[u8])
    ensures before { result.0.now ≡ before_first (λ byte. byte == mark) text.now }
    ensures after { result.1.now ≡ after_first (λ byte. byte == mark) text.now }
{
    let len = len_before(text, mark);
    (&text[..len], after(text, len))
}

// The first line of a text, and the text after it.
#[tactic(auto, using(crate::proofs::LineLaws::lines_split, crate::proofs::LineLaws::after_shorter))]
pub fn split_line(text: &[u8]) -> (&[u8], &[u8])
    requires { 0 < length text.now }
    ensures lines { lines_of text.now ≡ result.0.now ∷ lines_of result.1.now }
    ensures shorter { length result.1.now < length text.now }
{
    split(text, b'\n')
}

// How many blanks a text begins with, and ends with.
#[tactic(auto, using(crate::proofs::LineLaws::prefix_within))]
fn blanks_at_start(text: &[u8]) -> usize
    ensures value { result ≡ prefix_len is_blank text.now }
    ensures within { result ≤ length text.now }
{
    text.iter().take_while(|byte| is_blank(**byte)).count()
}

#[tactic(auto, using(crate::proofs::LineLaws::suffix_within))]
fn blanks_at_end(text: &[u8]) -> usize
    ensures value { result ≡ suffix_len is_blank text.now }
    ensures within { result ≤ length text.now }
{
    text.iter()
        .rev()
        .take_while(|byte| is_blank(**byte))
        .count()
}

// How many bytes a text has before its first blank.
#[tactic(auto, using(crate::proofs::LineLaws::prefix_within))]
fn word_len(text: &[u8]) -> usize
    ensures value { result ≡ position_or_len is_blank text.now }
    ensures within { result ≤ length text.now }
{
    text.iter().take_while(|byte| !is_blank(**byte)).count()
}

// A text without the blanks at its front.
#[tactic(auto, unfolding(crate::specs::Lines::trim_start))]
pub fn trim_start(text: &[u8]) -> &[u8]
    ensures { result.now ≡ trim_start text.now }
{
    &text[blanks_at_start(text)..]
}

// A text without the blanks at its end.
#[tactic(auto, unfolding(crate::specs::Lines::trim_end))]
pub fn trim_end(text: &[u8]) -> &[u8]
    ensures { result.now ≡ trim_end text.now }
{
    &text[..text.len() - blanks_at_end(text)]
}

// The word with which a text begins, and what stands after it, without the blanks between them.
#[tactic(auto, unfolding(crate::specs::Lines::word_of, crate::specs::Lines::after_word))]
pub fn split_word(text: &[u8]) -> (&[u8], &[u8])
    ensures word { result.0.now ≡ word_of text.now }
    ensures rest { result.1.now ≡ after_word text.now }
{
    let len = word_len(text);
    (&text[..len], trim_start(after(text, len)))
}
