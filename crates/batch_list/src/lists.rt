// The words of a disc, and the lists of them, which contracts see as what they were built from.
ghost use Rattle.std.specs.Prelude.{◌≡◌, List, ℕ};
ghost use Rattle.rip_words.specs.Command.{texts};

use std::marker::Model;

/// The words of a command, in their order.
#[derive(Debug, Drop)]
pub struct Words {
    list: Vec<String>,
}

impl Model for Words {
    ghost Value = { List (List ℕ) };

    ghost view = { λ words. texts words.list.items };
}

impl Words {
    /// The words of this list. It takes no memory.
    pub fn of(list: Vec<String>) -> Self
        ensures { result ≡ texts list.items }
    {
        Words { list }
    }

    /// The words.
    pub fn as_slice(&self) -> &[String]
        ensures { texts result.now ≡ self.now }
    {
        self.list.as_slice()
    }
}

/// The words of some commands, in their order.
#[derive(Debug, Drop)]
pub struct WordLists {
    list: Vec<Words>,
}

impl Model for WordLists {
    ghost Value = { List (List (List ℕ)) };

    ghost view = { λ lists. lists.list.items };
}

impl WordLists {
    /// The words of this list. It takes no memory.
    pub fn of(list: Vec<Words>) -> Self
        ensures { result ≡ list.items }
    {
        WordLists { list }
    }

    /// The words of each command.
    pub fn as_slice(&self) -> &[Words]
        ensures { result.now ≡ self.now }
    {
        self.list.as_slice()
    }
}
