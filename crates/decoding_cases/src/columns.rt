// Worked cases of columns: their errors from their syndromes.
ghost use Rattle.std.specs.Prelude.{◌+◌, ◌≤◌, length};

use crate::column_rows::{ROWS_4, ROWS_8, ROWS_16, ROWS_32};
use error_values::{Errors, decode_column, may_decode};
use gf16_field::Tables;
use std::process::Abort;
use std::test::Fail;

fn assert_errors<const P: usize>(
    rt: &impl Abort,
    found: Option<Errors<P>>,
    places: &[u16],
    flips: &[u16],
) {
    if let Some(errors) = found {
        assert!(rt; &errors.k[..errors.count] == places);
        assert!(rt; &errors.flip[..errors.count] == flips);
    } else {
        assert!(rt; false);
    }
}

// The syndromes of a column, its number of words, and its wrong ones where there is a list: their places and flips.
type Column = ([u16; 4], u32, Option<(&'static [u16], &'static [u16])>);

const COLUMNS: [Column; 7] = [
    ([0, 0, 0, 0], 3, Some((&[], &[]))),
    ([1, 1, 1, 1], 3, Some((&[2], &[1]))),
    ([0, 3, 5, 9], 3, Some((&[1, 2], &[1, 1]))),
    ([1, 1, 1, 1], 1, Some((&[0], &[1]))),
    ([1, 0, 0, 0], 3, None),
    ([0, 0, 0, 1], 3, None),
    ([0, 3, 5, 9], 1, None),
];

#[test]
fn columns_of_one_and_three_words(rt: HostRuntime) -> Result<(), Fail> {
    let field = Tables::new(rt.alloc())?;
    for (s, c, wanted) in COLUMNS {
        assert!(rt; 0 < c && c <= 44_548);
        let found = decode_column(&field, s, c);
        match wanted {
            Some((places, flips)) => assert_errors(&rt, found, places, flips),
            None => assert!(rt; found.is_none()),
        }
    }
    assert!(rt; !may_decode(&field, [0u16, 0, 0, 1]));
    assert!(rt; may_decode(&field, [0u16, 3, 5, 9]));
    Ok(())
}

// The `P` words of a row from its `at`-th on.
fn words_from<const P: usize>(row: &[u16], at: usize) -> [u16; P]
    requires { at + P ≤ length row.now }
{
    let mut words = [0u16; P];
    for i in 0..P {
        words[i] = row[at + i];
    }
    words
}

// Decodes the syndromes of a row, and sees that they are the errors that stand there: `c`, the number of errors or 65,535, `P / 2` places, `P / 2` flips, `P` syndromes.
fn assert_row<const P: usize>(rt: &impl Abort, field: &Tables, row: &[u16])
    requires { P ≤ 32 }
{
    assert!(rt; row.len() == 2 + 2 * P);
    let c = row[0] as u32;
    assert!(rt; 0 < c && c <= 44_548);
    let found = decode_column::<P>(field, words_from(row, 2 + P), c);
    let count = row[1] as usize;
    if count == 65_535 {
        assert!(rt; found.is_none());
    } else {
        assert!(rt; count <= P / 2);
        assert_errors(
            rt,
            found,
            &row[2..2 + count],
            &row[2 + P / 2..2 + P / 2 + count],
        );
    }
}

#[test]
fn patterns_within_the_radius_and_past_it(rt: HostRuntime) -> Result<(), Fail> {
    let field = Tables::new(rt.alloc())?;
    for row in &ROWS_4 {
        assert_row::<4>(&rt, &field, row);
    }
    for row in &ROWS_8 {
        assert_row::<8>(&rt, &field, row);
    }
    for row in &ROWS_16 {
        assert_row::<16>(&rt, &field, row);
    }
    for row in &ROWS_32 {
        assert_row::<32>(&rt, &field, row);
    }
    Ok(())
}
