//! The circuit of a case.

ghost use Rattle.std.specs.Prelude.{◌≡◌, ◌+◌, ◌≤◌, length, map, IfOk, IfErr};
ghost use Rattle.std.specs.List.{range_with_len};
ghost use Rattle.arr_compile.specs.Circuits.{IsCompiled};
ghost use Rattle.circuit_core.specs.Parts.{height};
ghost use Rattle.case_prove.specs.Circuits.{IsLaidOut, RefusesCircuit, sizes_of, layer_size, product_weight, products as layer_products, products_of};

use crate::refused::{Refused, program_refused};
use arr_compile::compile;
use case_text::{Case, CircuitSizes, LayerSize};
use circuit_core::{Circuit, CircuitGate, Kind};
use gkr_verify::{bound_sum, challenge_count};
use proof_wire::proof_len;
use std::alloc::{AllocError, Global};

/// The sizes of the circuit of the case's program. It is refused as `Program` exactly where the program's text or its
/// layout is refused so, and else as `Input` exactly where the numbers of inputs differ. Outputs and proof of the case
/// play no part.
pub fn circuit_case(alloc: Global, case: &Case) -> Result<CircuitSizes, Refused>
    ensures sizes { IfOk result (λ sizes. IsLaidOut case.now sizes) }
    ensures refused { IfErr result (λ refused. RefusesCircuit case.now refused) }
{
    let circuit = match circuit_of(alloc, case) {
        Ok(circuit) => circuit,
        Err(refused) => return Err(refused),
    };
    match circuit_sizes(alloc, &circuit) {
        Ok(sizes) => Ok(sizes),
        Err(_) => Err(Refused::Memory),
    }
}

/// The circuit of the case's program, which has as many inputs as the case. It is refused as `circuit_case` refuses the case.
pub fn circuit_of(alloc: Global, case: &Case) -> Result<Circuit, Refused>
    ensures compiled { IfOk result
        (λ circuit. IsCompiled case.now.lang case.now.program circuit.parts) }
    ensures counted { IfOk result (λ circuit. length case.now.inputs ≡ circuit.parts.inputs) }
    ensures refused { IfErr result (λ refused. RefusesCircuit case.now refused) }
{
    let compiled = match compile(alloc, case.program(), case.lang()) {
        Ok(compiled) => compiled,
        Err(refused) => return Err(program_refused(refused)),
    };
    let have = case.inputs().len() as u64;
    let need = u64::from(compiled.circuit.inputs());
    if have != need {
        return Err(Refused::Input { have, need });
    }
    Ok(compiled.circuit)
}

/// The sizes of a circuit and of its proofs.
fn circuit_sizes(alloc: Global, circuit: &Circuit) -> Result<CircuitSizes, AllocError>
    ensures { IfOk result (λ sizes. sizes ≡ sizes_of circuit.now.parts) }
{
    let layers = layer_sizes(alloc, circuit)?;
    Ok(CircuitSizes::new(
        layers,
        proof_len(circuit.shape()),
        challenge_count(circuit) as u64,
        bound_sum(circuit) as u64,
    ))
}

/// The sizes of the layers, the output layer first.
fn layer_sizes(alloc: Global, circuit: &Circuit) -> Result<Vec<LayerSize>, AllocError>
    ensures { IfOk result (λ sizes. sizes.items ≡ map (layer_size circuit.now.parts)
        (range_with_len 0 (height circuit.now.parts + 1))) }
{
    let mut sizes = Vec::new(alloc);
    for layer in 0..circuit.height() + 1 {
        sizes.push(layer_size(circuit, layer))?;
    }
    Ok(sizes)
}

/// The size of a layer.
fn layer_size(circuit: &Circuit, layer: usize) -> LayerSize
    requires { layer ≤ height circuit.now.parts }
    ensures { result ≡ layer_size circuit.now.parts layer }
{
    LayerSize {
        positions: circuit.width(layer) as u64,
        products: layer_products(circuit, layer),
    }
}

/// How many gates of a layer multiply.
fn layer_products(circuit: &Circuit, layer: usize) -> u64
    requires { layer ≤ height circuit.now.parts }
    ensures { result ≡ layer_products circuit.now.parts layer }
{
    if layer < circuit.height() {
        products(circuit.gates(layer))
    } else {
        0
    }
}

/// How many gates multiply.
fn products(gates: &[CircuitGate]) -> u64
    ensures { result ≡ products_of gates.now }
{
    let mut count = 0;
    for gate in gates {
        count += product_weight(gate.kind);
    }
    count
}

/// 1 for a product, and 0 for a sum.
fn product_weight(kind: Kind) -> u64
    ensures value { result ≡ product_weight kind }
    ensures small { result ≤ 1 }
{
    match kind {
        Kind::Add => 0,
        Kind::Mul => 1,
    }
}
