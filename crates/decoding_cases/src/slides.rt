// Starts that slide: steps that were worked out by hand, and each row beside that of starts which sum it anew.
ghost use Rattle.std.specs.Prelude.{◌≡◌, ◌*◌, ◌≤◌, length};

use crate::images::mixed;
use column_map::Shape;
use gf16_field::Tables;
use offset_slide::{Edges, Slides, down, up};
use rip_basics::Oom;
use std::alloc::Global;
use std::test::Fail;
use syndrome_stream::{PlainStarts, Registers, Starts};

// The starts of an image whose words come in three pieces: the second ends in the middle of a stride.
fn slides<const P: usize>(
    alloc: Global,
    field: &Tables,
    shape: Shape,
    words: &[u16],
) -> Result<Slides<P>, Oom>
    requires size { P ≤ 32 }
    requires whole { length words.now ≡ 1176 * shape }
{
    let mut registers = Registers::<P>::new(alloc, shape)?;
    let mut edges = Edges::new(alloc, shape)?;
    let (front, rest) = words.split_at(words.len() / 3);
    let (middle, back) = rest.split_at(12_345.min(rest.len()));
    registers.absorb(front);
    edges.absorb(front);
    registers.absorb(middle);
    edges.absorb(middle);
    registers.absorb(back);
    edges.absorb(back);
    Slides::new(alloc, field, registers.finish(), edges)
}

// The first start at which the two differ, of an image of so many sectors.
fn first_difference<const P: usize>(alloc: Global, sectors: u32) -> Result<Option<u32>, Fail>
    requires size { P ≤ 32 }
    requires sectors { sectors ≤ 1000 }
{
    let field = Tables::new(alloc)?;
    let Some(shape) = Shape::of(sectors) else {
        return Ok(Some(0));
    };
    let words = mixed(alloc, 1176 * sectors as usize)?;
    let sliding = slides::<P>(alloc, &field, shape, &words)?;
    let plain = PlainStarts::<P>::of(shape, words);
    for a in 2..35_278u32 {
        if sliding.at_start(&field, a) != plain.at_start(&field, a) {
            return Ok(Some(a));
        }
    }
    Ok(None)
}

#[test]
fn a_step_up_and_back(rt: HostRuntime) -> Result<(), Fail> {
    let field = Tables::new(rt.alloc())?;
    let shape = Shape::of(40).expect(&rt, "a shape");
    assert_eq!(rt; up(&field, &shape, [3, 0, 6, 10], 1, 4), [6, 0, 12, 20]);
    assert_eq!(rt; down(&field, &shape, [6, 0, 12, 20], 4, 1), [3, 0, 6, 10]);
    Ok(())
}

#[test]
fn each_start_beside_a_plain_one(rt: HostRuntime) -> Result<(), Fail> {
    let alloc = rt.alloc();
    assert_eq!(rt; first_difference::<4>(alloc, 30)?, None);
    assert_eq!(rt; first_difference::<8>(alloc, 49)?, None);
    assert_eq!(rt; first_difference::<16>(alloc, 75)?, None);
    Ok(())
}
