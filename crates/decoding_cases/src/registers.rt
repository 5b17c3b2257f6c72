// Worked cases of registers: what they generate, the shortest ones, and their roots.
ghost use Rattle.std.specs.Prelude.{◌<◌, ◌≤◌};

use error_locator::{Places, locate, may_have_roots, roots};
use gf16_field::{Gf, Tables};
use gf16_poly::{Register, eval, generates, times};
use std::process::Abort;
use std::test::Fail;

#[test]
fn a_register_of_two_coefficients(rt: HostRuntime) -> Result<(), Fail> {
    let field = Tables::new(rt.alloc())?;
    let register = Register {
        len: 2,
        coef: [3u16, 2, 0, 0],
    };
    let words = [0u16, 3, 5, 9];
    assert!(rt; generates(&field, &register, &words));
    assert!(rt; !generates(&field, &register, &[0u16, 3, 5, 8]));
    assert!(rt; eval(&field, &register, Gf(1)) == Gf(0));
    assert!(rt; eval(&field, &register, Gf(2)) == Gf(15));
    assert!(rt; times(&field, &words, &register) == [0u16, 3, 0, 0]);
    Ok(())
}

// Four words, and the length and the coefficients of their shortest register, which is not the only one of the length 4.
type Located = ([u16; 4], usize, Option<[u16; 4]>);

const LOCATED: [Located; 6] = [
    ([0, 0, 0, 0], 0, Some([0, 0, 0, 0])),
    ([1, 1, 1, 1], 1, Some([1, 0, 0, 0])),
    ([1, 2, 4, 8], 1, Some([2, 0, 0, 0])),
    ([0, 3, 5, 9], 2, Some([3, 2, 0, 0])),
    ([1, 0, 0, 0], 1, Some([0, 0, 0, 0])),
    ([0, 0, 0, 1], 4, None),
];

#[test]
fn registers_of_four_words(rt: HostRuntime) -> Result<(), Fail> {
    let field = Tables::new(rt.alloc())?;
    for (words, len, coef) in LOCATED {
        let register = locate(&field, words);
        assert_eq!(rt; register.len, len);
        if let Some(coef) = coef {
            assert_eq!(rt; register.coef, coef);
        }
    }
    Ok(())
}

fn assert_one_place<const P: usize>(rt: &impl Abort, places: Option<Places<P>>, place: u16)
    requires { 0 < P }
{
    if let Some(found) = places {
        assert!(rt; found.count == 1);
        assert!(rt; found.k[0] == place);
    } else {
        assert!(rt; false);
    }
}

fn assert_last_word<const P: usize>(rt: &impl Abort, field: &Tables)
    requires some { 0 < P }
    requires size { P ≤ 32 }
{
    let ones = [1u16; P];
    let register = locate(field, ones);
    assert!(rt; generates(field, &register, &ones));
    assert!(rt; eval(field, &register, Gf(1)) == Gf(0));
    assert!(rt; times(field, &ones, &register)[0] == 1);
    assert_one_place(rt, roots(field, &register, 44_548), 44_547);
}

#[test]
fn one_flip_at_each_size(rt: HostRuntime) -> Result<(), Fail> {
    let field = Tables::new(rt.alloc())?;
    assert_last_word::<4>(&rt, &field);
    assert_last_word::<8>(&rt, &field);
    assert_last_word::<16>(&rt, &field);
    assert_last_word::<32>(&rt, &field);
    Ok(())
}

#[test]
fn roots_of_two_coefficients(rt: HostRuntime) -> Result<(), Fail> {
    let field = Tables::new(rt.alloc())?;
    assert!(rt; !may_have_roots(&field, &locate(&field, [0u16, 0, 0, 1])));
    let register = locate(&field, [0u16, 3, 5, 9]);
    assert!(rt; may_have_roots(&field, &register));
    assert!(rt; roots(&field, &register, 1).is_none());
    if let Some(places) = roots(&field, &register, 3) {
        assert!(rt; places.count == 2);
        assert!(rt; places.k[0] == 1 && places.k[1] == 2);
    } else {
        assert!(rt; false);
    }
    Ok(())
}
