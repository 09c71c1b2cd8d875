//! Proofs for given challenges, by hand.

use crate::spelled::bytes_of;
use circuit_core::Circuit;
use circuit_eval::layer_values;
use field_ext::Fp;
use gkr_layers::challenge_count;
use gkr_prove::{prove, prove_pair};
use io_edge::OpenGate;
use pair_reduce::encode_pair;
use proof_wire::{ProofForm, encode};
use std::marker::Sync;
use std::process::Abort;
use std::test::Fail;
use std::thread::Threads;
use test_circuits::{copy, numbers, product};
use transcript_fs::{Challenges, Given};

/// The bytes of the proof by lines with these challenges.
fn proved<R: Abort + AllocGlobal + Threads + Sync>(
    rt: &R,
    circuit: &Circuit,
    inputs: &[Fp],
    given: &mut Given,
) -> Result<Vec<u8>, Fail> {
    let alloc = rt.alloc();
    assert!(rt; inputs.len() == circuit.inputs() as usize);
    assert!(rt; given.has(challenge_count(circuit)));
    let values = layer_values(rt, alloc, circuit, inputs)?;
    let messages = prove(rt, alloc, circuit, &values, given, 1, &OpenGate)?;
    Ok(encode(alloc, &messages)?)
}

/// Sees the proof by lines with these challenges.
fn proves<R: Abort + AllocGlobal + Threads + Sync>(
    rt: &R,
    circuit: &Circuit,
    inputs: &[Fp],
    challenges: &[i32],
    messages: &[i32],
) -> Result<(), Fail> {
    let mut given = Given::of(numbers(rt.alloc(), challenges)?);
    let bytes = proved(rt, circuit, inputs, &mut given)?;
    let want = bytes_of(rt.alloc(), ProofForm::Line, messages)?;
    assert!(rt; bytes.as_slice() == want.as_slice());
    Ok(())
}

#[test]
fn proves_a_copy(rt: HostRuntime) -> Result<(), Fail> {
    let Ok(circuit) = copy(rt.alloc()) else {
        return Err(Fail::new("no circuit"));
    };
    let five = [Fp::reduce(5)];
    let messages = [0, -5, 15, 120, -80, -40, 15, 5];
    proves(&rt, &circuit, &five, &[2, 3, 4, 6], &messages)
}

#[test]
fn proves_a_product(rt: HostRuntime) -> Result<(), Fail> {
    let Ok(circuit) = product(rt.alloc()) else {
        return Err(Fail::new("no circuit"));
    };
    let inputs = [Fp::reduce(3), Fp::reduce(4)];
    let messages = [
        0, 12, -12, 0, 12, -12, 0, 0, 0, 3, -3, 0, 4, -4, 0, 3, -3, 0, 4, -4, 0, 0, 0,
    ];
    proves(
        &rt,
        &circuit,
        &inputs,
        &[0, 0, 0, 0, 0, 0, 0, 0, 0],
        &messages,
    )
}

/// The bytes of the proof by pairs with these challenges.
fn proved_by_pairs<R: Abort + AllocGlobal + Threads + Sync>(
    rt: &R,
    circuit: &Circuit,
    inputs: &[Fp],
    given: &mut Given,
) -> Result<Vec<u8>, Fail> {
    let alloc = rt.alloc();
    assert!(rt; inputs.len() == circuit.inputs() as usize);
    assert!(rt; given.has(challenge_count(circuit)));
    let values = layer_values(rt, alloc, circuit, inputs)?;
    let messages = prove_pair(rt, alloc, circuit, &values, given, 2, &OpenGate)?;
    Ok(encode_pair(alloc, &messages)?)
}

/// Sees the proof by pairs with these challenges.
fn proves_by_pairs<R: Abort + AllocGlobal + Threads + Sync>(
    rt: &R,
    circuit: &Circuit,
    inputs: &[Fp],
    challenges: &[i32],
    messages: &[i32],
) -> Result<(), Fail> {
    let mut given = Given::of(numbers(rt.alloc(), challenges)?);
    let bytes = proved_by_pairs(rt, circuit, inputs, &mut given)?;
    let want = bytes_of(rt.alloc(), ProofForm::Pair, messages)?;
    assert!(rt; bytes.as_slice() == want.as_slice());
    Ok(())
}

#[test]
fn proves_a_copy_by_a_pair(rt: HostRuntime) -> Result<(), Fail> {
    let Ok(circuit) = copy(rt.alloc()) else {
        return Err(Fail::new("no circuit"));
    };
    let five = [Fp::reduce(5)];
    let messages = [0, -5, 15, 120, -80, -40, 15, 20];
    proves_by_pairs(&rt, &circuit, &five, &[2, 3, 4, 6], &messages)
}

/// The claim on the layer below is at 3 and, twice, at -1.
#[test]
fn proves_a_product_by_pairs(rt: HostRuntime) -> Result<(), Fail> {
    let Ok(circuit) = product(rt.alloc()) else {
        return Err(Fail::new("no circuit"));
    };
    let inputs = [Fp::reduce(3), Fp::reduce(4)];
    let messages = [
        0, -12, 36, 288, -192, -96, 36, -12, 0, 6, 6, 12, -24, 12, 12, -24, 12, 0, -18, 66, -3, 30,
    ];
    proves_by_pairs(
        &rt,
        &circuit,
        &inputs,
        &[2, 3, -1, 2, 1, 2, -1, 3, 5],
        &messages,
    )
}
