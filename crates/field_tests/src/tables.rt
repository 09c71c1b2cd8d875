//! Tables and their extensions by hand.

ghost use Rattle.std.specs.Prelude.{◌≡◌};

use crate::numbers::{P, number};
use field_ext::{Ext, Fp};
use mle_table::{BaseTable, Table};
use std::alloc::{AllocError, Global};
use std::process::Abort;
use std::test::Fail;

fn elements(alloc: Global, numbers: &[u64]) -> Result<Vec<Ext>, AllocError> {
    let mut values = Vec::new(alloc);
    for n in numbers {
        values.push(number(*n))?;
    }
    Ok(values)
}

/// Sees the extension of the table 1, 2, 3, 4 at (5, 7).
fn evaluates<R: Abort + AllocGlobal>(rt: &R, table: &Table) -> Result<(), AllocError>
    requires { table.now.k ≡ 2 }
{
    let value = table.eval_at(rt.alloc(), &[number(5), number(7)])?;
    assert!(rt; value == number(20));
    Ok(())
}

/// Sees the table 1, 2, 3, 4 with its first coordinate bound to 5, in a buffer.
fn folds_into<R: Abort>(rt: &R, table: &Table)
    requires { table.now.k ≡ 2 }
{
    let mut buffer = [Ext::zero(); 2];
    table.fold_into(number(5), &mut buffer);
    assert!(rt; buffer == [number(6), number(8)]);
}

/// Sees the table 1, 2, 3, 4 with its first coordinate bound to 5, in place.
fn folds<R: Abort>(rt: &R, table: &mut Table)
    requires { table.old.k ≡ 2 }
{
    table.fold(number(5));
    assert!(rt; table.at(0) == number(6) && table.at(1) == number(8));
}

/// Sees the table 1, 2, 3, 4 at a point and folded.
fn folds_and_evaluates<R: Abort + AllocGlobal>(
    rt: &R,
    table: &mut Table,
) -> Result<(), AllocError> {
    assert_eq!(rt; table.k(), 2);
    if table.k() == 2 {
        evaluates(rt, table)?;
        folds_into(rt, table);
        folds(rt, table);
    }
    Ok(())
}

#[test]
fn folds_and_evaluates_by_hand(rt: HostRuntime) -> Result<(), Fail> {
    let Ok(mut table) = Table::of_values(elements(rt.alloc(), &[1, 2, 3, 4])?) else {
        return Err(Fail::new("four values are a table"));
    };
    Ok(folds_and_evaluates(&rt, &mut table)?)
}

/// Sees the table 5, 2 of the base field, and its extension at the imaginary unit, which lies outside it.
fn leaves_the_base_field<R: Abort + AllocGlobal>(
    rt: &R,
    table: &BaseTable,
) -> Result<(), AllocError> {
    assert!(rt; table.values() == [Fp::reduce(5), Fp::reduce(2)].as_slice());
    assert_eq!(rt; table.k(), 1);
    if table.k() == 1 {
        assert!(rt; table.at(0) == number(5) && table.at(1) == number(2));
        let value = table.eval_at(rt.alloc(), &[Ext::of(Fp::zero(), Fp::one())])?;
        assert!(rt; value == Ext::of(Fp::reduce(5), Fp::reduce(P - 3)));
    }
    Ok(())
}

#[test]
fn keeps_values_of_the_base_field(rt: HostRuntime) -> Result<(), AllocError> {
    let values = vec![in rt.alloc(); Fp::reduce(5), Fp::reduce(P + 2)]?;
    leaves_the_base_field(&rt, &BaseTable::of(values))
}

/// Sees the four values of a table.
fn lists<R: Abort>(rt: &R, table: &Table, values: [u64; 4])
    requires { table.now.k ≡ 2 }
{
    let [first, second, third, fourth] = values;
    assert!(rt; table.at(0) == number(first) && table.at(1) == number(second));
    assert!(rt; table.at(2) == number(third) && table.at(3) == number(fourth));
}

#[test]
fn lists_the_equality_polynomial(rt: HostRuntime) -> Result<(), AllocError> {
    let table = Table::eq_table(rt.alloc(), &[number(2), number(3)])?;
    lists(&rt, &table, [2, P - 4, P - 3, 6]);
    Ok(())
}

/// Sees the values 1, 2, 3.
fn are_three<R: Abort>(rt: &R, values: &[Ext]) {
    assert!(rt; values == [number(1), number(2), number(3)].as_slice());
}

#[test]
fn refuses_three_values(rt: HostRuntime) -> Result<(), AllocError> {
    match Table::of_values(elements(rt.alloc(), &[1, 2, 3])?) {
        Ok(_) => assert!(rt; false, "three values are no table"),
        Err(refused) => are_three(&rt, &refused.values),
    }
    Ok(())
}
