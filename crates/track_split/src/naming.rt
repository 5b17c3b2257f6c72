// The names of the files of a disc that is split, and of one that is joined.
ghost use Rattle.std.specs.Prelude.{◌≡◌, ◌<◌, ◌≤◌, ◌++◌, IfOk};
ghost use Rattle.track_split.specs.Sheets.{track_file};
ghost use Rattle.track_split.specs.Tracks.{join_names, split_names};

use crate::sheets::two_digits;
use rip_outside::{Name, Names};
use std::alloc::{AllocError, Global};

// The name of a track's file in a folder: `track01.wav` and so on.
fn track_name(alloc: Global, folder: &str, number: u32) -> Result<Name, AllocError>
    requires { number < 100 }
    ensures { IfOk result (λ name. name ≡ folder.now ++ track_file number) }
{
    let [tens, ones] = two_digits(number);
    let mut name = String::from_str(alloc, folder)?;
    name.push_str("track")?;
    name.push(tens as char)?;
    name.push(ones as char)?;
    name.push_str(".wav")?;
    Ok(Name::of(name))
}

/// The names of the files of a disc with so many tracks that is split into a folder: one for each track, and then that of
/// their sheet.
pub fn split_names(alloc: Global, folder: &str, tracks: usize) -> Result<Names, AllocError>
    requires { tracks < 100 }
    ensures { IfOk result (λ names. names ≡ split_names folder.now tracks) }
{
    let mut list = Vec::new(alloc);
    for i in 0..tracks {
        list.push(track_name(alloc, folder, i as u32 + 1)?)?;
    }
    list.push(Name::of(format!(in alloc; "{folder}disc.cue")?))?;
    Ok(Names::of(list))
}

/// The names of a joined disc: that of its file, and that of its sheet.
pub fn join_names(alloc: Global, to: &str) -> Result<Names, AllocError>
    ensures { IfOk result (λ names. names ≡ join_names to.now) }
{
    let mut list = Vec::new(alloc);
    list.push(Name::copied(alloc, to)?)?;
    list.push(Name::of(format!(in alloc; "{to}.cue")?))?;
    Ok(Names::of(list))
}
