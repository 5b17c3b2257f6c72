// Places at which a register's polynomial is likely to be 0, for a look there before any walk over all places. Nothing
// is promised of them but that they are quickly found: each of 32 lanes walks over its own part of the column.

ghost use Rattle.std.specs.Prelude.{◌+◌, ◌≤◌};
ghost use Rattle.gf16_field.specs.Column.{longest_column};

use crate::Places;
use gf16_field::{Gf, Tables, times_lanes};
use gf16_poly::Register;
use std::simd::prelude::*;

// The terms of the polynomial at 32 places, the first of each lane's part.
fn first_terms<const P: usize>(field: &Tables, r: &Register<P>, c: u32, rows: u32) -> [u16x32; P]
    requires { P ≤ 32 }
{
    let none = u16x32::splat(0);
    let mut terms = [none; P];
    for i in 0..r.len {
        let mut lanes = [0; 32];
        for j in 0..32 {
            let place = (j as u32).wrapping_mul(rows);
            let exponent = 65_536u32.wrapping_sub(c).wrapping_add(place);
            let power = (i as u32 + 1).wrapping_mul(exponent) % 65_535;
            lanes[j] = field.mul(Gf(r.coef[i]), field.power(power)).0;
        }
        terms[i] = u16x32::from_array(lanes);
    }
    terms
}

// The lanes times the power of α of term `i`, which the compiler knows in each arm, so that each shift is by a constant.
fn next_term(lanes: u16x32, i: usize) -> u16x32 {
    match i {
        0 => times_lanes(lanes, 1),
        1 => times_lanes(lanes, 2),
        2 => times_lanes(lanes, 3),
        3 => times_lanes(lanes, 4),
        4 => times_lanes(lanes, 5),
        5 => times_lanes(lanes, 6),
        6 => times_lanes(lanes, 7),
        7 => times_lanes(lanes, 8),
        8 => times_lanes(lanes, 9),
        9 => times_lanes(lanes, 10),
        10 => times_lanes(lanes, 11),
        11 => times_lanes(lanes, 12),
        12 => times_lanes(lanes, 13),
        13 => times_lanes(lanes, 14),
        14 => times_lanes(lanes, 15),
        _ => times_lanes(lanes, 16),
    }
}

// The sum of 1 and the terms at each lane's place. The terms go on to the next places: each times its own power of α.
fn next_sums<const P: usize>(terms: &mut [u16x32; P], len: usize) -> u16x32
    requires size { len + len ≤ P }
    requires most { P ≤ 32 }
{
    let mut sums = u16x32::splat(1);
    for i in 0..len {
        sums = sums ^ terms[i];
        terms[i] = next_term(terms[i], i);
    }
    sums
}

// No places.
fn no_places<const P: usize>() -> Places<P> {
    Places {
        count: 0,
        k: [0; P],
    }
}

// The places with one more, in its order; if there is room.
fn with_place<const P: usize>(places: Places<P>, place: u16) -> Places<P> {
    let Places { count, mut k } = places;
    if count == P {
        return Places { count, k };
    }
    let mut i = count;
    while i > 0 && k[i - 1] > place {
        k[i] = k[i - 1];
        i -= 1;
    }
    k[i] = place;
    Places {
        count: count + 1,
        k,
    }
}

// The places with those of a row at which the sum is 0.
fn with_row<const P: usize>(places: Places<P>, sums: u16x32, rows: u32, row: u32) -> Places<P> {
    let sums = sums.to_array();
    let mut places = places;
    for j in 0..32 {
        if sums[j] == 0 {
            let place = (j as u32).wrapping_mul(rows).wrapping_add(row);
            places = with_place(places, (place % 65_536) as u16);
        }
    }
    places
}

/// The places of a neighbouring column's errors, and those beside them. It takes no memory.
pub fn beside<const P: usize>(near: &[u16; P]) -> Places<P> {
    let mut places = no_places();
    let mut next = 0u32;
    for i in 0..P {
        let place = near[i] as u32;
        for at in place.saturating_sub(1).max(next)..place + 2 {
            places = with_place(places, (at % 65_536) as u16);
            next = at + 1;
        }
    }
    places
}

/// Places that are likely to be roots. It takes no memory.
pub fn likely_roots<const P: usize>(field: &Tables, r: &Register<P>, c: u32) -> Places<P>
    requires size { P ≤ 32 }
    requires half { r.now.len + r.now.len ≤ P }
    requires column { c ≤ longest_column }
{
    let rows = (c + 31) / 32;
    let mut terms = first_terms(field, r, c, rows);
    let mut places = no_places();
    let none = u16x32::splat(0);
    for row in 0..rows {
        let sums = next_sums(&mut terms, r.len);
        if sums.simd_eq(none).any() {
            places = with_row(places, sums, rows, row);
        }
    }
    places
}
