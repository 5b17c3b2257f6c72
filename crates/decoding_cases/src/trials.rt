// Worked cases of made discs: words of the generator, as `erand48` of a C library gives them, and rips of such words.
use crate::images::ramp;
use column_map::Shape;
use std::test::Fail;
use trial_disc::{disc_words, made_rip};

#[test]
fn words_of_seeds(rt: HostRuntime) -> Result<(), Fail> {
    for (seed, words) in [
        (7, [41, 7_717, 56_021, 37_288]),
        (u32::MAX, [58_983, 20_360, 64_196, 22_877]),
    ] {
        assert_eq!(rt;
            disc_words(rt.alloc(), seed, 4)?.as_slice(),
            words.as_slice()
        );
    }
    Ok(())
}

// The hits 0 and 1 flip the words of the columns 0 and 4,099.
#[test]
fn late_early_and_struck_rips(rt: HostRuntime) -> Result<(), Fail> {
    let alloc = rt.alloc();
    let shape = Shape::of(30).expect(&rt, "a shape");
    let disc = ramp(alloc, 17_640)?;
    let (front, back) = disc.split_at(disc.len() - 2);
    let late = made_rip(alloc, shape, &disc, 1, 0)?;
    assert_eq!(rt; late.len(), 35_280);
    assert!(rt; late.starts_with(&[0, 0]) && late.ends_with(front));
    let early = made_rip(alloc, shape, &late, -1, 0)?;
    assert_eq!(rt; early.len(), 35_280);
    assert!(rt; early.starts_with(front) && early.ends_with(&[0, 0]));
    assert_eq!(rt; back, [17_639, 17_639].as_slice());
    let struck = made_rip(alloc, shape, &disc, 0, 2)?;
    for (place, flipped) in [
        (11_759, 5_879),
        (11_760, 5_881),
        (11_761, 5_880),
        (15_859, 7_931),
    ] {
        assert_eq!(rt; struck.get(place).copied(), Some(flipped), "at {place}");
    }
    Ok(())
}
