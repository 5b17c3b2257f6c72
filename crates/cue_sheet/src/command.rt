// The commands of a cue sheet.
ghost use Rattle.std.specs.Prelude.{◌≡◌};
ghost use Rattle.cue_sheet.specs.Parts.{same_word};
ghost use Rattle.cue_sheet.specs.Reading.{command_of, is_unread};

// What a line's first word says of it.
#[derive(Clone, Copy)]
pub enum Command {
    // The rest of the line is unread.
    Unread,
    File,
    Track,
    Index,
    Pregap,
    Postgap,
}

// Two words are the same but for the case of ASCII letters.
#[tactic(auto, unfolding(crate::specs::Parts::same_word))]
pub fn same_word(word: &[u8], other: &[u8]) -> bool
    ensures { result ≡ same_word word.now other.now }
{
    word.eq_ignore_ascii_case(other)
}

#[tactic(auto, unfolding(crate::specs::Reading::is_unread))]
fn is_unread(word: &[u8]) -> bool
    ensures { result ≡ is_unread word.now }
{
    same_word(word, b"REM")
        || same_word(word, b"TITLE")
        || same_word(word, b"PERFORMER")
        || same_word(word, b"SONGWRITER")
        || same_word(word, b"CATALOG")
        || same_word(word, b"ISRC")
        || same_word(word, b"FLAGS")
        || same_word(word, b"CDTEXTFILE")
}

// The command that a word is.
#[tactic(auto, unfolding(crate::specs::Reading::command_of))]
pub fn command_of(word: &[u8]) -> Option<Command>
    ensures { result ≡ command_of word.now }
{
    if is_unread(word) {
        Some(Command::Unread)
    } else if same_word(word, b"FILE") {
        Some(Command::File)
    } else if same_word(word, b"TRACK") {
        Some(Command::Track)
    } else if same_word(word, b"INDEX") {
        Some(Command::Index)
    } else if same_word(word, b"PREGAP") {
        Some(Command::Pregap)
    } else if same_word(word, b"POSTGAP") {
        Some(Command::Postgap)
    } else {
        None
    }
}
