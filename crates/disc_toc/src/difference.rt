// Where two layouts differ first.
ghost use Rattle.std.specs.Prelude.{◌≡◌, ◌≤◌, ◌↔◌, length, find, IsNone};
ghost use Rattle.disc_toc.specs.Toc.{toc_of};
ghost use Rattle.disc_toc.specs.Difference.{difference_of, differs, starts_from};

use crate::layout::Layout;

/// A part of a layout. Tracks count from 1.
#[derive(Clone, Copy, Debug, PartialEq, Eq)]
pub enum LayoutPart {
    Pregap,
    Sectors,
    /// The number of tracks.
    Tracks,
    Start { track: u32 },
}

/// A part in which two layouts differ, and what each of them has there: sectors, or the
/// number of tracks.
#[derive(Clone, Copy, Debug, PartialEq, Eq)]
pub struct Differs {
    pub part: LayoutPart,
    pub rip: u32,
    pub kept: u32,
}

// The first track whose starts differ.
fn first_start_difference(rip: &[u32], kept: &[u32]) -> Option<Differs>
    requires rip { length rip.now ≤ 99 }
    requires same { length rip.now ≡ length kept.now }
    ensures { result ≡ find differs (starts_from 1 rip.now kept.now) }
{
    for i in 0..rip.len() {
        if rip[i] != kept[i] {
            return Some(Differs {
                part: LayoutPart::Start {
                    track: i as u32 + 1,
                },
                rip: rip[i],
                kept: kept[i],
            });
        }
    }
    None
}

/// The first part in which the layouts differ, in the order pregap, sectors, number of
/// tracks, starts by track, or None where they are equal. It takes no memory.
pub fn first_difference(rip: &Layout, kept: &Layout) -> Option<Differs>
    ensures value { result ≡ difference_of (toc_of rip.now) (toc_of kept.now) }
    ensures equal { IsNone result ↔ (rip.now ≡ kept.now) }
{
    let rip_starts = rip.starts.as_slice();
    let kept_starts = kept.starts.as_slice();
    if rip.pregap != kept.pregap {
        return Some(Differs {
            part: LayoutPart::Pregap,
            rip: rip.pregap,
            kept: kept.pregap,
        });
    }
    if rip.sectors != kept.sectors {
        return Some(Differs {
            part: LayoutPart::Sectors,
            rip: rip.sectors,
            kept: kept.sectors,
        });
    }
    if rip_starts.len() != kept_starts.len() {
        return Some(Differs {
            part: LayoutPart::Tracks,
            rip: rip_starts.len() as u32,
            kept: kept_starts.len() as u32,
        });
    }
    first_start_difference(rip_starts, kept_starts)
}
