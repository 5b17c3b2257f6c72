// Why a text is no list.
ghost use Rattle.std.specs.Prelude.{◌≡◌};
ghost use Rattle.batch_list.specs.declared.fail.ListFail.TheVariants.{Oom};

use std::alloc::{AllocError, AllocFailed};

/// What is wrong with a list. Discs count from 1, and the words of a disc from 0.
#[derive(Clone, Copy, Debug, PartialEq, Eq)]
pub enum ListKind {
    /// The list has more bytes than are read. `read_list` never says so.
    TooLong,
    /// The bytes aren't UTF-8, or the text isn't TOML.
    NotToml,
    /// The key `disc` is missing, or isn't an array, or the array is empty.
    NoDiscs,
    /// There are more than 1,000 discs.
    TooMany,
    /// This disc isn't a table with an array of texts under the key `words`.
    BadDisc { disc: u32 },
    /// The words of this disc are no command's: that with this index breaks a rule, or is missing, or the first is `batch`.
    BadWords { disc: u32, word: u32 },
}

/// Why there is no list.
#[derive(Clone, Copy, Debug, PartialEq, Eq)]
pub enum ListFail {
    /// The text is refused.
    Refused { kind: ListKind },
    /// Memory was wanting.
    Oom,
}

impl From<AllocError> for ListFail {
    ghost from_gives = { λ _ fail. fail ≡ Oom };

    fn from(_: AllocError) -> ListFail {
        ListFail::Oom
    }
}

impl<T: Drop> From<AllocFailed<T>> for ListFail {
    ghost from_gives = { λ _ fail. fail ≡ Oom };

    fn from(_: AllocFailed<T>) -> ListFail {
        ListFail::Oom
    }
}
