//! The tables of a circuit of two layers, by hand.

ghost use Rattle.std.specs.Prelude.{◌<◌, length};

use circuit_eval::{Values, layer_values};
use field_ext::Fp;
use std::process::Abort;
use std::test::Fail;
use test_circuits::{numbers, product};

/// Compares the values of a layer with those wanted.
fn holds<R: Abort + AllocGlobal>(
    rt: &R,
    values: &Values,
    layer: usize,
    want: &[i32],
) -> Result<(), Fail>
    requires { layer < length values.now }
{
    let want = numbers(rt.alloc(), want)?;
    let found = values.table(layer).elements(rt.alloc())?;
    assert_eq!(rt; found.as_slice(), want.as_slice());
    Ok(())
}

#[test]
fn holds_the_values_of_each_layer(rt: HostRuntime) -> Result<(), Fail> {
    let Ok(circuit) = product(rt.alloc()) else {
        return Err(Fail::new("no circuit"));
    };
    let inputs = [Fp::reduce(3), Fp::reduce(4)];
    if circuit.inputs() != 2 || circuit.height() != 2 {
        return Err(Fail::new("another circuit"));
    }
    let values = layer_values(&rt, rt.alloc(), &circuit, &inputs)?;
    holds(&rt, &values, 0, &[0, 12])?;
    holds(&rt, &values, 1, &[0, 12])?;
    holds(&rt, &values, 2, &[0, 3, 4, 0])
}
