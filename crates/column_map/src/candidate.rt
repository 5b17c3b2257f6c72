// What a search answers: offsets at which a rip fits, and the words to mend.
ghost use Rattle.std.specs.Prelude.{◌≡◌, List};

use std::marker::Model;

/// An offset at which a rip is near a record.
#[derive(Clone, Copy, Debug, PartialEq, Eq)]
pub struct Candidate {
    /// The offset in samples: positive where the rip is late.
    pub offset: i32,
    /// How many words of the rip differ from those of the table that fits there.
    pub errors: u32,
    /// How many columns have such a word.
    pub columns: u32,
}

/// A word of a rip to be mended.
#[derive(Clone, Copy, Debug, PartialEq, Eq)]
pub struct Fix {
    /// The word's place in the rip, counted in words.
    pub place: u32,
    /// What to exclusive-or the word with.
    pub flip: u16,
}

/// A list of candidates in their order, seen as that list.
#[derive(Debug, Drop)]
pub struct CandidateList {
    list: Vec<Candidate>,
}

impl Model for CandidateList {
    ghost use Rattle.std.specs.Prelude.{List};
    ghost use Rattle.column_map.specs.declared.candidate.Candidate.{Candidate};

    ghost Value = { List Candidate };

    ghost view = { λ candidates. candidates.list.items };
}

impl CandidateList {
    /// The candidates of this list. It takes no memory.
    pub fn of(list: Vec<Candidate>) -> Self
        ensures { result ≡ list.items }
    {
        CandidateList { list }
    }

    /// The candidates. It takes no memory.
    pub fn as_slice(&self) -> &[Candidate]
        ensures { result.now ≡ self.now }
    {
        self.list.as_slice()
    }
}
