// What a cue sheet says.
ghost use Rattle.std.specs.Prelude.{◌≡◌};
ghost use Rattle.cue_sheet.specs.Sheet.{IsSheet};
ghost use Rattle.std.proofs.Props.{props};

use rip_basics::Names;
use std::marker::Model;

/// Where a track begins: the file in which its INDEX 01 stands, counted from 0, and that
/// index's time in this file in sectors.
#[derive(Clone, Copy, Debug, PartialEq, Eq)]
pub struct CueTrack {
    pub file: u32,
    pub index01: u32,
}

/// The tracks in their order. Contracts see it as the list.
#[derive(Debug, Drop)]
pub struct CueTracks {
    list: Vec<CueTrack>,
}

impl Model for CueTracks {
    ghost use Rattle.std.specs.Prelude.{List};
    ghost use Rattle.cue_sheet.specs.declared.sheet.CueTrack.{CueTrack};

    ghost Value = { List CueTrack };

    ghost view = { λ tracks. tracks.list.items };
}

impl CueTracks {
    /// The tracks of this list. It takes no memory.
    pub fn of(list: Vec<CueTrack>) -> Self
        ensures { result ≡ list.items }
    {
        CueTracks { list }
    }

    /// The tracks.
    pub fn as_slice(&self) -> &[CueTrack]
        ensures { result.now ≡ self.now }
    {
        self.list.as_slice()
    }
}

/// What a cue sheet says: the names of the files in their order, the tracks, and the sectors of
/// the pregap before the first file. There are 1 to 99 tracks in 1 to 100 files; each track's file
/// is one of them and not before that of the track before; times are below 4,500,000 sectors.
#[derive(Debug, Drop)]
pub struct Cue {
    pub files: Names,
    pub tracks: CueTracks,
    pub pregap: u32,
    pub ghost valid: { IsSheet files tracks pregap } by { Prim.hlevel props },
}
