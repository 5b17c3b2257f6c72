// A layout of a disc, and the starts of its tracks.
ghost use Rattle.std.specs.Prelude.{◌≡◌};
ghost use Rattle.disc_toc.specs.Layout.{IsLayout};
ghost use Rattle.std.proofs.Props.{props};

use std::marker::Model;

/// The starts of the tracks in sectors, first track first. Contracts see it as the list.
#[derive(Debug, Drop)]
pub struct Starts99 {
    list: Vec<u32>,
}

impl Model for Starts99 {
    ghost use Rattle.std.specs.Prelude.{List, ℕ};

    ghost Value = { List ℕ };

    ghost view = { λ starts. starts.list.items };
}

impl Starts99 {
    /// The starts of this list. It takes no memory.
    pub fn of(list: Vec<u32>) -> Self
        ensures { result ≡ list.items }
    {
        Starts99 { list }
    }

    /// The starts.
    pub fn as_slice(&self) -> &[u32]
        ensures { result.now ≡ self.now }
    {
        self.list.as_slice()
    }
}

impl PartialEq for Starts99 {
    ghost use Rattle.std.specs.Str.{bytes_eq};
    ghost use Rattle.std.proofs.Common.{rules};
    ghost use Rattle.std.specs.Cmp.Rules.{comparing};

    ghost eq = { bytes_eq };

    ghost laws = { Prim.search (comparing, rules) };

    fn eq(&self, other: &Starts99) -> bool {
        self.as_slice() == other.as_slice()
    }
}

impl Eq for Starts99 {
    ghost use Rattle.std.proofs.Common.{rules};
    ghost use Rattle.std.specs.Cmp.Rules.{comparing};

    ghost laws = { Prim.search (comparing, rules) };
}

/// A disc's layout in sectors: the pregap before the first file, the start of each track
/// after the pregap, and the sectors of audio. The last track runs to the end.
#[derive(Debug, PartialEq, Eq, Drop)]
pub struct Layout {
    pub pregap: u32,
    pub starts: Starts99,
    pub sectors: u32,
    pub ghost valid: { IsLayout pregap starts sectors } by { Prim.hlevel props },
}
