//! Circuits by their parts, and parts that are none, in the order of the refusals.

use crate::gates::{add, mul};
use circuit_core::{BadCircuit, Circuit, CircuitGate, CircuitRefused, Layer, Leaf, leaf_value};
use field_ext::Fp;
use std::alloc::Global;
use std::process::Abort;
use std::test::Fail;

/// A circuit of one layer with one output over two inputs.
fn made(
    alloc: Global,
    gates: &[CircuitGate],
    input_width: u32,
    leaves: &[Leaf],
) -> Result<Circuit, CircuitRefused> {
    let gates = Vec::from_slice(alloc, gates)?;
    let layers = vec![in alloc; Layer::of(gates)].map_err(|_| CircuitRefused::Memory)?;
    let leaves = Vec::from_slice(alloc, leaves)?;
    Circuit::of(alloc, layers, input_width, leaves, 2, 1)
}

const TWO: [Leaf; 2] = [Leaf::Input(0), Leaf::Input(1)];

/// Sees that a circuit of one layer is refused for this.
fn refuses<R: Abort + AllocGlobal>(
    rt: &R,
    gates: &[CircuitGate],
    input_width: u32,
    leaves: &[Leaf],
    bad: BadCircuit,
) {
    let refused = made(rt.alloc(), gates, input_width, leaves).err();
    assert_eq!(rt; refused, Some(CircuitRefused::Bad(bad)));
}

#[test]
fn refuses_in_order(rt: HostRuntime) -> Result<(), Fail> {
    let alloc = rt.alloc();
    let leaves = Vec::from_slice(alloc, &TWO)?;
    let none = Circuit::of(alloc, Vec::new(alloc), 3, leaves, 2, 1).err();
    let depth = BadCircuit::Depth { layers: 0 };
    assert_eq!(rt; none, Some(CircuitRefused::Bad(depth)));
    let zero = add(0, 0);
    let width = |layer: usize, width: usize| BadCircuit::Width { layer, width };
    refuses(&rt, &[zero], 4, &TWO, width(0, 1));
    refuses(&rt, &[zero, zero, zero], 4, &TWO, width(0, 3));
    refuses(&rt, &[zero, zero], 2, &TWO, width(1, 2));
    let padding = |gate: usize| BadCircuit::Zero { layer: 0, gate };
    refuses(&rt, &[mul(0, 0), add(9, 0)], 4, &TWO, padding(0));
    refuses(&rt, &[zero, zero, mul(0, 0), zero], 4, &TWO, padding(2));
    let operand = BadCircuit::Operand {
        layer: 0,
        gate: 1,
        operand: 2,
        width: 2,
    };
    refuses(&rt, &[zero, add(2, 0)], 2, &TWO[..1], operand);
    refuses(&rt, &[zero, add(2, 3)], 2, &TWO[..1], operand);
    refuses(&rt, &[zero, add(1, 2)], 2, &TWO[..1], operand);
    let leaf = BadCircuit::Leaf { position: 2 };
    refuses(
        &rt,
        &[zero, zero],
        4,
        &[Leaf::Input(1), Leaf::Input(2)],
        leaf,
    );
    Ok(())
}

/// Sees what a circuit of one layer tells of its lists.
fn tells_its_lists<R: Abort>(rt: &R, circuit: &Circuit) {
    assert_eq!(rt; circuit.height(), 1);
    assert!(rt; circuit.shape().layers() == 2);
    assert_eq!(rt; circuit.shape().k(0), 1);
    assert_eq!(rt; circuit.shape().k(1), 2);
    assert_eq!(rt; circuit.inputs(), 2);
    assert_eq!(rt; circuit.outputs(), 1);
    for (position, leaf) in [(0, None), (2, Some(Leaf::Input(1))), (3, None)] {
        assert_eq!(rt; circuit.leaf_at(position), leaf);
    }
}

#[test]
fn keeps_its_lists(rt: HostRuntime) -> Result<(), Fail> {
    let Ok(circuit) = made(rt.alloc(), &[add(0, 0), mul(1, 2)], 4, &TWO) else {
        return Err(Fail::new("no circuit"));
    };
    tells_its_lists(&rt, &circuit);
    assert_eq!(&rt; leaf_value(&[], Leaf::Const(Fp::one())), Fp::one());
    Ok(())
}
