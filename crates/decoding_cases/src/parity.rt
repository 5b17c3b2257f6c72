// Worked cases of parity: sums that are folded, and images that come in pieces.
ghost use Rattle.std.specs.Prelude.{◌≡◌, ◌*◌, ◌≤◌, length};

use crate::images::{one_word, ramp};
use column_map::Shape;
use rip_basics::Oom;
use std::alloc::Global;
use std::test::Fail;
use syndrome_stream::{Registers, Table, fold_stride};

// The parity of an image, whose words come in three pieces: the second ends in the middle of a stride and of 32 words.
fn parity<const P: usize>(alloc: Global, shape: Shape, words: &[u16]) -> Result<Table<P>, Oom>
    requires size { P ≤ 32 }
    requires whole { length words.now ≡ 1176 * shape }
{
    let mut registers = Registers::new(alloc, shape)?;
    let (front, rest) = words.split_at(words.len() / 3);
    let (middle, back) = rest.split_at(12_345.min(rest.len()));
    registers.absorb(front);
    registers.absorb(middle);
    registers.absorb(back);
    Ok(registers.finish())
}

#[test]
fn worked_parities(rt: HostRuntime) -> Result<(), Fail> {
    let alloc = rt.alloc();
    let zero = Table::<4>::zero(alloc)?;
    assert_eq!(rt; zero.row(11_759), [0; 4]);

    let wide = Shape::of(109).expect(&rt, "a shape");
    assert_eq!(rt; wide.per_column(), 8);
    assert_eq!(rt; wide.covered(0, 11_759), None);
    assert_eq!(rt; wide.covered(0, 105_839), Some((11_759, 7)));
    assert_eq!(rt; wide.covered(0, 105_840), None);

    let short = Shape::of(30).expect(&rt, "a shape");
    let table = parity::<8>(alloc, short, &ramp(alloc, 17_640)?)?;
    for j in 0..11_760u32 {
        assert_eq!(rt; table.row(j), [(5_880 + j / 2) as u16; 8]);
    }

    let shape = Shape::of(100).expect(&rt, "a shape");
    let last = parity::<8>(alloc, shape, &one_word(alloc, 117_600, 94_080 + 5)?)?;
    assert_eq!(rt; last.row(4), [0; 8]);
    assert_eq!(rt; last.row(5), [1; 8]);
    let earlier = one_word(alloc, 117_600, 82_320 + 5)?;
    assert_eq!(rt;
        parity::<8>(alloc, shape, &earlier)?.row(5),
        [1, 2, 4, 8, 16, 32, 64, 128]
    );
    assert_eq!(rt; parity::<4>(alloc, shape, &earlier)?.row(5), [1, 2, 4, 8]);
    Ok(())
}

// Twice 0x8000 is 0x100B. 33 places are a whole vector of 32 and one more.
#[test]
fn a_word_is_folded_into_each_sum(rt: HostRuntime) {
    let mut sums = [0x8000u16; 33];
    fold_stride(&mut sums, &[1u16; 33], 1);
    assert_eq!(rt; sums, [0x100A; 33]);
    fold_stride(&mut sums[..0], &[], 1);
    assert_eq!(rt; sums, [0x100A; 33]);
}
