// How a list of discs is read.
ghost use Rattle.std.specs.Prelude.{◌≡◌, ◌≤◌, ◌≢◌, All, IfOk, codes, length, map, option_and_then, option_map};
ghost use Rattle.toml.specs.Data.{as_array, get, get_member};
ghost use Rattle.toml.specs.View.{array_view, table_view, view};
ghost use Rattle.rip_words.specs.Command.{texts};
ghost use Rattle.batch_list.specs.Reading.{IsDiscWords, Lists, all_texts, disc_reading, disc_words, discs_in, discs_reading, list_reading, words_for};

use crate::fail::{ListFail, ListKind};
use crate::lists::{WordLists, Words};
use rip_words::{WordsFail, read_command};
use std::alloc::{AllocError, Global};
use toml::value::Array;
use toml::{Table, Value};

// The most discs of a list.
const MOST_DISCS: usize = 1000;

fn refused(kind: ListKind) -> ListFail
    ensures { result ≡ ListFail.Refused kind }
{
    ListFail::Refused { kind }
}

// The texts that these values are, if each is a text.
fn all_texts(alloc: Global, values: &[Value]) -> Result<Option<Words>, AllocError>
    ensures { IfOk result (λ read. read ≡ all_texts (map view values.now)) }
{
    let mut words = Vec::with_capacity(alloc, values.len())?;
    for value in values {
        match value.as_str() {
            Some(text) => words.push(String::from_str(alloc, text)?)?,
            None => return Ok(None),
        }
    }
    Ok(Some(Words::of(words)))
}

// The array `words` of a disc, if that is a table with such an array.
fn word_array(disc: &Value) -> Option<&Array>
    ensures { option_map (λ array. array_view array.now) result ≡ option_and_then as_array (get (codes "words") (view disc.now)) }
{
    disc.get("words")?.as_array()
}

// The texts of the array `words` of a disc.
fn disc_words(alloc: Global, disc: &Value) -> Result<Option<Words>, AllocError>
    ensures { IfOk result (λ read. read ≡ disc_words (view disc.now)) }
{
    match word_array(disc) {
        Some(array) => all_texts(alloc, array.as_slice()),
        None => Ok(None),
    }
}

// The words of the disc with this number, where they are those of a command other than `batch`.
fn words_for(alloc: Global, number: u32, words: Words) -> Result<Words, ListFail>
    ensures { Lists result (words_for number words) }
{
    match read_command(alloc, words.as_slice()) {
        Ok(_) => Ok(words),
        Err(WordsFail::Usage { word }) => Err(refused(ListKind::BadWords { disc: number, word })),
        Err(WordsFail::Oom) => Err(ListFail::Oom),
    }
}

// The disc with this number.
#[tactic(auto, unfolding(crate::specs::Reading::disc_reading))]
fn read_disc(alloc: Global, number: u32, disc: &Value) -> Result<Words, ListFail>
    ensures { Lists result (disc_reading number (view disc.now)) }
{
    match disc_words(alloc, disc)? {
        Some(words) => words_for(alloc, number, words),
        None => Err(refused(ListKind::BadDisc { disc: number })),
    }
}

// The array `disc` of a document, if there is one.
fn disc_array(document: &Table) -> Option<&Array>
    ensures { option_map (λ array. array_view array.now) result ≡ option_and_then as_array (get_member (codes "disc") (table_view document.now)) }
{
    document.get("disc")?.as_array()
}

// The elements of the array `disc`, or none where there is no such array.
fn discs_in(document: &Table) -> &[Value]
    ensures { map view result.now ≡ discs_in (table_view document.now) }
{
    match disc_array(document) {
        Some(discs) => discs.as_slice(),
        None => &[],
    }
}

// The discs of a list.
fn read_discs(alloc: Global, discs: &[Value]) -> Result<WordLists, ListFail>
    ensures { Lists result (discs_reading (map view discs.now)) }
{
    if discs.is_empty() {
        return Err(refused(ListKind::NoDiscs));
    }
    if discs.len() > MOST_DISCS {
        return Err(refused(ListKind::TooMany));
    }
    let mut lists = Vec::with_capacity(alloc, discs.len())?;
    for (index, disc) in discs.iter().enumerate() {
        lists.push(read_disc(alloc, index as u32 + 1, disc)?)?;
    }
    Ok(WordLists::of(lists))
}

/// The list of discs that this text is: the words of each disc, in order. A list that breaks a rule is `Refused` with the first that it
/// breaks: of the text, of how many discs there are, and then disc by disc. That is never `TooLong`. What is read has one to 1,000
/// discs, and the words of each are those of a command other than `batch`. `Oom` is want of memory.
pub fn read_list(alloc: Global, bytes: &[u8]) -> Result<WordLists, ListFail>
    ensures answer { Lists result (list_reading bytes.now) }
    ensures most { IfOk result (λ lists. length lists ≤ 1000) }
    ensures commands { IfOk result (All IsDiscWords) }
    ensures never_too_long { result ≢ Err (ListFail.Refused ListKind.TooLong) }
{
    match toml::table_from_slice(alloc, bytes) {
        Ok(document) => read_discs(alloc, discs_in(&document)),
        Err(error) => {
            if error.is_memory() {
                Err(ListFail::Oom)
            } else {
                Err(refused(ListKind::NotToml))
            }
        }
    }
}
