// Where the tracks of a disc begin, and where the last one ends.
ghost use Rattle.std.specs.Prelude.{◌≡◌, ◌+◌, ◌<◌, ◌≤◌, length};
ghost use Rattle.rip_basics.specs.Disc.{most_sectors};
ghost use Rattle.disc_toc.specs.Toc.{toc_of};
ghost use Rattle.disc_ids.specs.Places.{lead_out, track_begin};

use disc_toc::Layout;

// Where the track after this many others begins.
pub(crate) fn begin(layout: &Layout, before: usize) -> u32
    requires { before < length layout.now.starts }
    ensures place { result ≡ track_begin (toc_of layout.now) (before + 1) }
    ensures on_disc { result < most_sectors }
{
    layout.pregap + layout.starts.as_slice()[before]
}

// Where the last track ends.
pub(crate) fn lead(layout: &Layout) -> u32
    ensures place { result ≡ lead_out (toc_of layout.now) }
    ensures on_disc { result ≤ most_sectors }
{
    layout.pregap + layout.sectors
}
