//! The values of all layers of a circuit, of a narrow one and of a wide one.

ghost use Rattle.std.specs.Prelude.{◌<◌, ◌≤◌, length};

use crate::gates::{add, mul};
use circuit_core::{Circuit, CircuitRefused, Layer, Leaf};
use circuit_eval::{Values, layer_values};
use field_ext::{Ext, Fp};
use std::alloc::Global;
use std::marker::Sync;
use std::process::Abort;
use std::test::Fail;
use std::thread::Threads;

/// The circuit of `(a + b) * 3`, where the constant is carried.
fn triple(alloc: Global) -> Result<Circuit, CircuitRefused> {
    let mut layers = Vec::new(alloc);
    for gates in [
        [add(0, 0), add(1, 0)].as_slice(),
        [add(0, 0), mul(1, 2)].as_slice(),
        [add(0, 0), add(1, 2), add(3, 0), add(0, 0)].as_slice(),
    ] {
        let gates = Vec::from_slice(alloc, gates)?;
        layers
            .push(Layer::of(gates))
            .map_err(|_| CircuitRefused::Memory)?;
    }
    let leaves = Vec::from_slice(
        alloc,
        &[Leaf::Input(0), Leaf::Input(1), Leaf::Const(Fp::reduce(3))],
    )?;
    Circuit::of(alloc, layers, 4, leaves, 2, 1)
}

/// The value at a position of a layer, where the layer has one.
fn value_at(values: &Values, layer: usize, position: usize) -> Option<Ext>
    requires { layer < length values.now }
{
    let table = values.table(layer);
    let k = table.k();
    if k < 20 && position < 1 << k {
        Some(table.at(position))
    } else {
        None
    }
}

/// Sees that positions of layers have these values, for the inputs 5 and 7.
fn has<R: Abort + AllocGlobal + Threads + Sync>(
    rt: &R,
    circuit: &Circuit,
    rows: &[(usize, usize, u64)],
) -> Result<(), Fail> {
    let inputs = [Fp::reduce(5), Fp::reduce(7)];
    if circuit.inputs() != 2 {
        return Err(Fail::new("other inputs"));
    }
    let values = layer_values(rt, rt.alloc(), circuit, &inputs)?;
    for (layer, position, want) in rows {
        if *layer > circuit.height() {
            return Err(Fail::new("no such layer"));
        }
        let value = Ext::embed(Fp::reduce(*want));
        assert_eq!(rt; value_at(&values, *layer, *position), Some(value));
    }
    Ok(())
}

/// The circuit of `a * b`, over a layer of so many gates.
fn product(alloc: Global, width: usize) -> Result<Circuit, CircuitRefused>
    requires { 2 ≤ width }
{
    let mut gates = vec![in alloc; add(0, 0); width]?;
    gates[1] = mul(1, 2);
    let layers = vec![in alloc; Layer::of(gates)].map_err(|_| CircuitRefused::Memory)?;
    let leaves = Vec::from_slice(alloc, &[Leaf::Input(0), Leaf::Input(1)])?;
    Circuit::of(alloc, layers, 4, leaves, 2, 1)
}

#[test]
fn has_a_table_for_each_layer(rt: HostRuntime) -> Result<(), Fail> {
    let Ok(circuit) = triple(rt.alloc()) else {
        return Err(Fail::new("no circuit"));
    };
    let rows = [
        (3, 0, 0),
        (3, 2, 7),
        (3, 3, 3),
        (2, 1, 12),
        (2, 2, 3),
        (2, 3, 0),
        (1, 1, 36),
        (0, 0, 0),
        (0, 1, 36),
    ];
    has(&rt, &circuit, &rows)
}

#[test]
fn evaluates_wide_layers(rt: HostRuntime) -> Result<(), Fail> {
    let Ok(circuit) = product(rt.alloc(), 1 << 16) else {
        return Err(Fail::new("no circuit"));
    };
    let rows = [(0, 0, 0), (0, 1, 35), (0, 2, 0), (0, 65_535, 0)];
    has(&rt, &circuit, &rows)
}
