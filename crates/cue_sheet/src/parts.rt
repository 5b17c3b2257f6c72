// The parts of a line: numbers, times and names.
ghost use Rattle.std.specs.Prelude.{◌≡◌, ◌<◌, ◌≤◌, true, false, MatchOption, IfSome};
ghost use Rattle.std.specs.Str.{is_utf8};
ghost use Rattle.cue_sheet.specs.Parts.{number_under, label_of, time_of, name_of, quoted, ReadsName};
ghost use Rattle.cue_sheet.specs.Sheet.{IsTime};

use crate::text::{split, split_word};

// A number of one to so many digits that is below the limit.
#[tactic(auto, unfolding(crate::specs::Parts::number_under))]
pub fn number_of(most: usize, limit: u32, word: &[u8]) -> Option<u32>
    requires { most ≤ 3 }
    ensures value { result ≡ number_under most limit word.now }
    ensures range { IfSome result (λ number. number < limit) }
{
    if word.is_empty() || word.len() > most {
        return None;
    }
    let mut value: u32 = 0;
    for byte in word {
        if !byte.is_ascii_digit() {
            return None;
        }
        value = value * 10 + u32::from(*byte - b'0');
    }
    if value < limit { Some(value) } else { None }
}

// The number of a track or of an index.
pub fn label_of(word: &[u8]) -> Option<u32>
    ensures value { result ≡ label_of word.now }
    ensures range { IfSome result (λ number. number < 100) }
{
    number_of(2, 100, word)
}

// The sectors of a time.
#[tactic(auto, unfolding(crate::specs::Parts::time_of))]
pub fn time_of(text: &[u8]) -> Option<u32>
    ensures value { result ≡ time_of text.now }
    ensures range { IfSome result IsTime }
{
    let (minutes, seconds_on) = split(text, b':');
    let (seconds, frames) = split(seconds_on, b':');
    match (
        number_of(3, 1000, minutes),
        number_of(2, 60, seconds),
        number_of(2, 75, frames),
    ) {
        (Some(minutes), Some(seconds), Some(frames)) => {
            Some((minutes * 60 + seconds) * 75 + frames)
        }
        _ => None,
    }
}

// A name after its first quote mark, and what stands after the next one.
#[tactic(auto, unfolding(crate::specs::Parts::quoted))]
fn quoted(text: &[u8]) -> Option<(&[u8], &[u8])>
    ensures { ReadsName result (quoted text.now) }
{
    if !text.contains(&b'"') {
        return None;
    }
    let (name, rest) = split(text, b'"');
    if name.is_empty() {
        None
    } else {
        Some((name, rest))
    }
}

// A file's name, and what stands after it.
#[tactic(auto, unfolding(crate::specs::Parts::name_of))]
pub fn name_of(text: &[u8]) -> Option<(&[u8], &[u8])>
    ensures { ReadsName result (name_of text.now) }
{
    match text {
        [] => None,
        [b'"', others @ ..] => quoted(others),
        _ => {
            let (name, rest) = split_word(text);
            if name.is_empty() {
                None
            } else {
                Some((name, rest))
            }
        }
    }
}

// A name that is UTF-8, as a text.
#[tactic(auto, using(crate::proofs::TextLaws::is_text, crate::proofs::TextLaws::is_no_text))]
pub fn text_of(name: &[u8]) -> Option<&str>
    ensures { MatchOption result (is_utf8 name.now ≡ false) (λ text. (is_utf8 name.now ≡ true) × (text.now ≡ name.now)) }
{
    match str::from_utf8(name) {
        Ok(text) => Some(text),
        Err(_) => None,
    }
}
