// What becomes of an entry of a store that is merged.
ghost use Rattle.std.specs.Prelude.{◌≡◌};
ghost use Rattle.cmd_merge.specs.MergeOutcome.{is_added, is_differing, is_same, is_skipped};

/// What becomes of an entry of the store FROM.
#[derive(Clone, Copy, Debug, PartialEq, Eq)]
pub enum Fate {
    /// It is good, and is added to TO, where no file has its name.
    Added,
    /// It is good, and TO's file of its name has the same bytes.
    Same,
    /// It is good, and TO's file of its name has other bytes. Both stay.
    Differs,
    /// It is bad, and is left where it is.
    Skipped,
}

impl Fate {
    /// Whether the entry is added.
    pub fn is_added(self) -> bool
        ensures { result ≡ is_added self }
    {
        match self {
            Fate::Added => true,
            _ => false,
        }
    }

    /// Whether TO has the same record.
    pub fn is_same(self) -> bool
        ensures { result ≡ is_same self }
    {
        match self {
            Fate::Same => true,
            _ => false,
        }
    }

    /// Whether TO has another record of this name.
    pub fn is_differing(self) -> bool
        ensures { result ≡ is_differing self }
    {
        match self {
            Fate::Differs => true,
            _ => false,
        }
    }

    /// Whether the entry is skipped.
    pub fn is_skipped(self) -> bool
        ensures { result ≡ is_skipped self }
    {
        match self {
            Fate::Skipped => true,
            _ => false,
        }
    }
}
