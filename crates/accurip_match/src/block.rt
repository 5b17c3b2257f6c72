// What a response has: blocks of entries.
ghost use Rattle.std.specs.Prelude.{◌≡◌};

use std::marker::Model;

/// What a block says of a track.
#[derive(Clone, Copy, Debug, PartialEq, Eq)]
pub struct Entry {
    /// How many rips had the sum.
    pub confidence: u8,
    /// The track's sum, either v1 or v2, or 0 where there is none.
    pub sum: u32,
    /// A number that isn't used.
    pub extra: u32,
}

/// The entries of a block, first track first. Contracts see it as the list.
#[derive(Debug, Drop)]
pub struct Entries {
    list: Vec<Entry>,
}

impl Model for Entries {
    ghost use Rattle.std.specs.Prelude.{List};
    ghost use Rattle.accurip_match.specs.declared.block.Entry.{Entry};

    ghost Value = { List Entry };

    ghost view = { λ entries. entries.list.items };
}

impl Entries {
    /// The entries of this list. It takes no memory.
    pub fn of(list: Vec<Entry>) -> Self
        ensures { result ≡ list.items }
    {
        Entries { list }
    }

    /// The entries. It takes no memory.
    pub fn as_slice(&self) -> &[Entry]
        ensures { result.now ≡ self.now }
    {
        self.list.as_slice()
    }
}

/// A block of a response: what one pressing of a disc is known by, and an entry for each of its tracks.
#[derive(Debug, Drop)]
pub struct Block {
    /// The disc's first id at AccurateRip.
    pub id1: u32,
    /// Its second id there.
    pub id2: u32,
    /// Its id at FreeDB.
    pub freedb: u32,
    /// What is known of its tracks, first track first.
    pub entries: Entries,
}

/// The blocks of a response in their order. Contracts see it as the list.
#[derive(Debug, Drop)]
pub struct Response {
    list: Vec<Block>,
}

impl Model for Response {
    ghost use Rattle.std.specs.Prelude.{List};
    ghost use Rattle.accurip_match.specs.declared.block.Block.{Block};

    ghost Value = { List Block };

    ghost view = { λ response. response.list.items };
}

impl Response {
    /// The blocks of this list. It takes no memory.
    pub fn of(list: Vec<Block>) -> Self
        ensures { result ≡ list.items }
    {
        Response { list }
    }

    /// The blocks. It takes no memory.
    pub fn as_slice(&self) -> &[Block]
        ensures { result.now ≡ self.now }
    {
        self.list.as_slice()
    }
}
