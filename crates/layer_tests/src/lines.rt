//! The extension on a line, by hand.

use field_ext::{Ext, Fp};
use line_reduce::{LinePart, claim_at, line_poly, point_at};
use mle_table::BaseTable;
use std::alloc::{AllocError, Global};
use std::process::Abort;
use std::test::Fail;
use test_circuits::number;

/// Sees the extension of a table on the line from (1, 2) to (4, 3).
fn meets_on_the_line<R: Abort + AllocGlobal>(rt: &R, table: &BaseTable) -> Result<(), Fail> {
    assert_eq!(rt; table.k(), 2);
    // The extension is 1 + x + 2 y, and the line from (1, 2) to (4, 3) is (1 + 3 t, 2 + t).
    let (b, c) = ([number(1), number(2)], [number(4), number(3)]);
    let line = line_poly(rt.alloc(), table, &b, &c)?;
    assert_eq!(rt;
        line.coefficients(),
        [number(6), number(5), Ext::zero()].as_slice()
    );
    let mut point = [Ext::zero(); 2];
    point_at(&b, &c, number(10), &mut point);
    assert_eq!(rt; point, [number(31), number(12)]);
    assert_eq!(rt; claim_at(&line, number(10)), number(56));
    Ok(())
}

#[test]
fn meets_the_extension_on_the_line(rt: HostRuntime) -> Result<(), Fail> {
    let values = Vec::from_slice(rt.alloc(), &[1, 2, 3, 4].map(Fp::reduce))?;
    meets_on_the_line(&rt, &BaseTable::of(values))
}

/// The numbers 0 to `2^k - 1`: for 12 the extension is x0 + 2 x1 + 4 x2 + .. + 2,048 x11.
fn in_order(alloc: Global, k: u32) -> Result<BaseTable, AllocError> {
    let mut values = vec![in alloc; Fp::zero(); 1usize << k.min(20)]?;
    for i in 0..values.len() {
        values[i] = Fp::reduce(i as u64);
    }
    Ok(BaseTable::of(values))
}

/// Sees the line from (1, .., 1) to (2, .., 2), which is 4,095 + 4,095 t.
fn meets_on_a_wide_line<R: Abort + AllocGlobal>(rt: &R, table: &BaseTable) -> Result<(), Fail> {
    assert_eq!(rt; table.k(), 12);
    let line = line_poly(rt.alloc(), table, &[number(1); 12], &[number(2); 12])?;
    let mut want = [Ext::zero(); 13];
    want[0] = number(4095);
    want[1] = number(4095);
    assert_eq!(rt; line.coefficients(), want.as_slice());
    Ok(())
}

/// Sees the second part of it, which is 2,048 and 2,047 + 2,047 t. There is no third, so that nothing changes.
fn meets_the_second_part<R: Abort + AllocGlobal>(rt: &R, table: &BaseTable, part: &mut LinePart) {
    part.aim(&[number(1); 12], &[number(2); 12]);
    let mut want = [Ext::zero(); 12];
    want[0] = number(4095);
    want[1] = number(2047);
    part.work(table.values(), 1);
    assert_eq!(rt; part.line(), want.as_slice());
    part.work(table.values(), 2);
    assert_eq!(rt; part.line(), want.as_slice());
}

#[test]
fn meets_the_extension_of_a_wide_table(rt: HostRuntime) -> Result<(), Fail> {
    let table = in_order(rt.alloc(), 12)?;
    meets_on_a_wide_line(&rt, &table)?;
    let mut part = LinePart::new(rt.alloc())?;
    meets_the_second_part(&rt, &table, &mut part);
    Ok(())
}
