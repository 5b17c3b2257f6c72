// The ids that are numbers.
ghost use Rattle.std.specs.Prelude.{◌≡◌, ◌≤◌};
ghost use Rattle.rip_basics.specs.Disc.{most_sectors};
ghost use Rattle.disc_toc.specs.Toc.{toc_of};
ghost use Rattle.disc_ids.specs.Numbers.{accurip_id_one, accurip_id_two, digit_sum, digits_of_seconds, freedb_number, second};

use crate::places::{begin, lead};
use disc_toc::Layout;

fn accurip_one(layout: &Layout) -> u32
    ensures { result ≡ accurip_id_one (toc_of layout.now) }
{
    let mut sum: u32 = 0;
    for i in 0..layout.starts.as_slice().len() {
        sum = sum.wrapping_add(begin(layout, i));
    }
    sum.wrapping_add(lead(layout))
}

fn accurip_two(layout: &Layout) -> u32
    ensures { result ≡ accurip_id_two (toc_of layout.now) }
{
    let tracks = layout.starts.as_slice().len();
    let mut sum: u32 = 0;
    for i in 0..tracks {
        sum = sum.wrapping_add(begin(layout, i).max(1) * (i as u32 + 1));
    }
    sum.wrapping_add(lead(layout) * (tracks as u32 + 1))
}

/// The two ids of a disc at AccurateRip, modulo 2^32: the sum of the sectors in which the tracks begin and the last one
/// ends, counted from the start of the pregap, and the sum of the same sectors times the tracks' numbers. In the second
/// a track that begins in sector 0 is as one that begins in sector 1, and the end has the next number. It takes no memory.
pub fn accurip_ids(layout: &Layout) -> (u32, u32)
    ensures one { result.0 ≡ accurip_id_one (toc_of layout.now) }
    ensures two { result.1 ≡ accurip_id_two (toc_of layout.now) }
{
    (accurip_one(layout), accurip_two(layout))
}

// The second in which a sector is: sector 0 is in second 2.
fn second_of(sector: u32) -> u32
    requires { sector ≤ most_sectors }
    ensures second { result ≡ second sector }
    ensures on_disc { result ≤ 5942 }
{
    (sector + 150) / 75
}

// The sum of a number's decimal digits.
fn sum_of_digits(number: u32) -> u32
    ensures sum { result ≡ digit_sum number }
    ensures small { result ≤ number }
{
    let mut rest = number;
    let mut sum = 0;
    while rest > 0 {
        sum += rest % 10;
        rest /= 10;
    }
    sum
}

// The sum of the decimal digits of the seconds in which the tracks begin.
fn digits_of_tracks(layout: &Layout) -> u32
    ensures { result ≡ digits_of_seconds (toc_of layout.now) }
{
    let mut digits = 0;
    for i in 0..layout.starts.as_slice().len() {
        digits += sum_of_digits(second_of(begin(layout, i)));
    }
    digits
}

/// The id of a disc at FreeDB: the sum of the decimal digits of the seconds in which its tracks begin, modulo 255, the
/// seconds from the first track to the end in two bytes, and the number of tracks. It takes no memory.
pub fn freedb_id(layout: &Layout) -> u32
    ensures { result ≡ freedb_number (toc_of layout.now) }
{
    let tracks = layout.starts.as_slice().len() as u32;
    let seconds = second_of(lead(layout)) - second_of(begin(layout, 0));
    digits_of_tracks(layout) % 255 * 0x0100_0000 + seconds * 256 + tracks
}
