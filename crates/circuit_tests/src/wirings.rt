//! The wiring polynomials of a layer at a point off the Boolean ones.

use crate::gates::{add, mul};
use circuit_core::{Circuit, CircuitGate, CircuitRefused, Layer, Leaf};
use field_ext::{Ext, Fp};
use std::alloc::Global;
use std::process::Abort;
use std::test::Fail;
use wiring_poly::wiring_at;

fn number(n: u64) -> Ext {
    Ext::embed(Fp::reduce(n))
}

/// One layer of two gates over two positions.
fn made(alloc: Global, second: CircuitGate) -> Result<Circuit, CircuitRefused> {
    let gates = Vec::from_slice(alloc, &[add(0, 0), second])?;
    let layers = vec![in alloc; Layer::of(gates)].map_err(|_| CircuitRefused::Memory)?;
    let leaves = Vec::from_slice(alloc, &[Leaf::Input(0)])?;
    Circuit::of(alloc, layers, 2, leaves, 1, 1)
}

/// Sees the wiring polynomials at 2, 3 and 4.
fn weighs<R: Abort>(rt: &R, circuit: &Circuit, want: (Ext, Ext)) {
    let (z, b, c) = ([number(2)], [number(3)], [number(4)]);
    assert!(rt; circuit.height() == 1);
    assert!(rt; circuit.coordinates(0) == 1 && circuit.coordinates(1) == 1);
    assert_eq!(rt; wiring_at(circuit, 0, &z, &b, &c), want);
}

#[test]
fn weighs_each_gate_by_its_kind(rt: HostRuntime) -> Result<(), Fail> {
    let Ok(copies) = made(rt.alloc(), add(1, 0)) else {
        return Err(Fail::new("no circuit"));
    };
    weighs(&rt, &copies, (-number(24), Ext::zero()));
    // Gate 0 gives (1 - 2)(1 - 3)(1 - 4) to the sums, and gate 1 the product 2 * 3 * 4 to the products.
    let Ok(squares) = made(rt.alloc(), mul(1, 1)) else {
        return Err(Fail::new("no circuit"));
    };
    weighs(&rt, &squares, (-number(6), number(24)));
    Ok(())
}
