// Worked cases of the field: sums of plain shifts, on both ways to multiply and to invert.
use crate::field_rows::{INVERSES, PRODUCTS};
use gf16_field::{Gf, Tables, inverse, mul, pow_alpha};
use std::process::Abort;
use std::test::Fail;

fn assert_products(rt: &impl Abort, tables: &Tables, rows: &[(u16, u16, u16)]) {
    for row in rows {
        assert!(rt; mul(Gf(row.0), Gf(row.1)) == Gf(row.2));
        assert!(rt; tables.mul(Gf(row.0), Gf(row.1)) == Gf(row.2));
    }
}

fn assert_inverses(rt: &impl Abort, tables: &Tables, rows: &[(u16, u16)]) {
    for row in rows {
        assert!(rt; inverse(Gf(row.0)) == Some(Gf(row.1)));
        assert!(rt; tables.inverse(Gf(row.0)) == Some(Gf(row.1)));
    }
}

#[test]
fn products_and_inverses_by_shifts(rt: HostRuntime) -> Result<(), Fail> {
    let tables = Tables::new(rt.alloc())?;
    assert_products(&rt, &tables, &PRODUCTS);
    assert_inverses(&rt, &tables, &INVERSES);
    assert!(rt; inverse(Gf(0)) == None);
    assert!(rt; pow_alpha(16) == Gf(0x100B));
    assert!(rt; pow_alpha(65_535) == Gf(1));
    Ok(())
}
