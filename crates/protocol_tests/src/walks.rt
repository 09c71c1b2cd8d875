//! Verdicts by pairs on layers of gates in no order, less than a block of 1,024 positions wide and two blocks wide, beside the
//! sums over gates and leaves that define the wiring polynomials and the input's extension.

ghost use Rattle.std.specs.Prelude.{◌<◌};

use crate::answered::answer_to;
use crate::spelled::bytes_of;
use circuit_core::{Circuit, CircuitGate, CircuitRefused, Kind, Layer, Leaf};
use field_ext::{Ext, Fp};
use gkr_verify::Verdict;
use proof_wire::ProofForm;
use std::alloc::{AllocError, Global};
use std::process::Abort;
use std::test::Fail;
use test_circuits::gate;
use transcript_fs::Given;

/// Gates of both kinds in no order that runs follow, over `2^k` positions.
fn tangled(alloc: Global, k: u32) -> Result<Vec<CircuitGate>, AllocError> {
    let width = 1u32 << k.min(11);
    let mut gates = vec![in alloc; gate(Kind::Add, 0, 0)]?;
    for g in 1..width {
        let kind = if g * g % 7 < 3 { Kind::Add } else { Kind::Mul };
        gates.push(gate(kind, g * 5 % width, g * g % width))?;
    }
    Ok(gates)
}

/// Two layers of these gates over as many positions, each but the first an input.
fn made(alloc: Global, k: u32) -> Result<Circuit, CircuitRefused> {
    let width = 1u32 << k.clamp(1, 11);
    let gates = tangled(alloc, k).map_err(|_| CircuitRefused::Memory)?;
    let again = tangled(alloc, k).map_err(|_| CircuitRefused::Memory)?;
    let layers = vec![in alloc; Layer::of(gates), Layer::of(again)].map_err(
        |_| CircuitRefused::Memory,
    )?;
    let mut leaves = Vec::new(alloc);
    for j in 0..width - 1 {
        leaves
            .push(Leaf::Input(j))
            .map_err(|_| CircuitRefused::Memory)?;
    }
    let count = (width - 1).max(1);
    Circuit::of(alloc, layers, width, leaves, count, count)
}

/// So many challenges, each another.
fn drawn(alloc: Global, count: usize) -> Result<Vec<Ext>, AllocError> {
    let mut challenges = Vec::new(alloc);
    let mut number = 3u64;
    for _ in 0..count {
        number = number
            .wrapping_mul(6_364_136_223_846_793_005)
            .wrapping_add(1);
        challenges.push(Ext::of(Fp::reduce(number), Fp::reduce(number >> 7)))?;
    }
    Ok(challenges)
}

/// The equality polynomial at a point and the bits of a number.
fn equality(point: &[Ext], number: usize) -> Ext {
    let mut product = Ext::one();
    let mut rest = number;
    for u in point {
        let factor = if rest % 2 == 1 { *u } else { Ext::one() - *u };
        product = product * factor;
        rest /= 2;
    }
    product
}

/// The same at a first point, and with a weight at a second.
fn at_both(first: &[Ext], second: &[Ext], weight: Ext, number: usize) -> Ext {
    equality(first, number) + weight * equality(second, number)
}

/// Zeros but for the second layer's pair.
fn elements(alloc: Global, k: usize, pair: [i32; 2]) -> Result<Vec<i32>, AllocError> {
    let mut elements = vec![in alloc; 0i32; 2 * (6 * k.min(11) + 2)]?;
    let behind = elements.len();
    if 2 <= behind {
        elements[behind - 2] = pair[0];
        elements[behind - 1] = pair[1];
    }
    Ok(elements)
}

/// The bytes of messages of zeros but for the second layer's pair.
fn pair_bytes(alloc: Global, k: usize, pair: [i32; 2]) -> Result<Vec<u8>, AllocError> {
    let elements = elements(alloc, k, pair)?;
    bytes_of(alloc, ProofForm::Pair, &elements)
}

/// The inputs 1, 2, 3 ..
fn counted(alloc: Global, count: u32) -> Result<Vec<Fp>, AllocError> {
    let mut inputs = Vec::new(alloc);
    for j in 0..count {
        inputs.push(Fp::reduce(j as u64 + 1))?;
    }
    Ok(inputs)
}

/// The verdict on these bytes, for inputs 1, 2, 3 .. and outputs of zeros.
fn verdict_on_bytes<R: Abort + AllocGlobal>(
    rt: &R,
    circuit: &Circuit,
    bytes: &[u8],
    given: &mut Given,
) -> Result<Verdict, Fail> {
    let inputs = counted(rt.alloc(), circuit.inputs())?;
    let outputs = vec![in rt.alloc(); Fp::zero(); circuit.outputs() as usize]?;
    answer_to(
        rt,
        ProofForm::Pair,
        circuit,
        &inputs,
        &outputs,
        bytes,
        given,
    )
}

/// Sees the verdict on messages of zeros but for the second layer's pair, for inputs 1, 2, 3 .. and outputs of zeros.
fn sees_pair<R: Abort + AllocGlobal>(
    rt: &R,
    circuit: &Circuit,
    k: usize,
    pair: [i32; 2],
    want: &Verdict,
) -> Result<(), Fail> {
    let verdict = verdict_on(rt, circuit, k, pair)?;
    assert_eq!(rt; verdict, *want);
    Ok(())
}

/// The verdict on messages of zeros but for the second layer's pair, for inputs 1, 2, 3 .. and outputs of zeros.
fn verdict_on<R: Abort + AllocGlobal>(
    rt: &R,
    circuit: &Circuit,
    k: usize,
    pair: [i32; 2],
) -> Result<Verdict, Fail> {
    let bytes = pair_bytes(rt.alloc(), k, pair)?;
    let mut given = Given::of(drawn(rt.alloc(), 5 * k.min(11) + 2)?);
    verdict_on_bytes(rt, circuit, &bytes, &mut given)
}

/// The sum over the gates of a kind at the place of the second layer's claim, for the challenges after the output's point.
fn gates_sum(gates: &[CircuitGate], kind: Kind, drawn: &[Ext], k: usize) -> Ext {
    let mut sum = Ext::zero();
    if k > 11 || drawn.len() < 4 * k + 2 {
        return sum;
    }
    for (g, gate) in gates.iter().enumerate() {
        if gate.kind == kind {
            let left = equality(&drawn[2 * k + 1..3 * k + 1], gate.left as usize);
            let right = equality(&drawn[3 * k + 1..4 * k + 1], gate.right as usize);
            let position = at_both(&drawn[..k], &drawn[k..2 * k], drawn[2 * k], g);
            sum = sum + position * (left * right);
        }
    }
    sum
}

/// The sum over the inputs 1, 2, 3 .. at the place of their claim.
fn inputs_sum(inputs: usize, drawn: &[Ext], k: usize) -> Ext {
    let mut sum = Ext::zero();
    if k > 11 || drawn.len() < 4 * k + 2 {
        return sum;
    }
    for j in 0..inputs.min(2047) {
        let (left, right) = (&drawn[2 * k + 1..3 * k + 1], &drawn[3 * k + 1..4 * k + 1]);
        let value = Ext::embed(Fp::reduce(j as u64 + 1));
        sum = sum + value * at_both(left, right, drawn[4 * k + 1], j + 1);
    }
    sum
}

/// Sees the verdicts on three pairs, whose wanted sums are those over these gates and the inputs.
fn sees_sums<R: Abort + AllocGlobal>(
    rt: &R,
    circuit: &Circuit,
    gates: &[CircuitGate],
    drawn: &[Ext],
    k: usize,
) -> Result<(), Fail> {
    let had = Ext::zero();
    let add = Verdict::End {
        layer: 1,
        had,
        want: gates_sum(gates, Kind::Add, drawn, k),
    };
    let mul = Verdict::End {
        layer: 1,
        had,
        want: Ext::zero() - gates_sum(gates, Kind::Mul, drawn, k),
    };
    let input = Verdict::Input {
        had,
        want: inputs_sum(circuit.inputs() as usize, drawn, k),
    };
    sees_pair(rt, circuit, k, [1, 0], &add)?;
    sees_pair(rt, circuit, k, [1, -1], &mul)?;
    sees_pair(rt, circuit, k, [0, 0], &input)
}

/// Sees the verdicts on a circuit over `2^k` positions.
fn sums_over<R: Abort + AllocGlobal>(rt: &R, circuit: &Circuit, k: usize) -> Result<(), Fail>
    requires { k < 12 }
{
    let gates = tangled(rt.alloc(), k as u32)?;
    let all = drawn(rt.alloc(), 5 * k + 2)?;
    sees_sums(rt, circuit, &gates, &all[k.min(all.len())..], k)
}

#[test]
fn sums_in_blocks_at_both_points(rt: HostRuntime) -> Result<(), Fail> {
    let Ok(circuit) = made(rt.alloc(), 3) else {
        return Err(Fail::new("no circuit"));
    };
    sums_over(&rt, &circuit, 3)
}

#[test]
fn sums_in_two_blocks_at_both_points(rt: HostRuntime) -> Result<(), Fail> {
    let Ok(circuit) = made(rt.alloc(), 11) else {
        return Err(Fail::new("no circuit"));
    };
    sums_over(&rt, &circuit, 11)
}
