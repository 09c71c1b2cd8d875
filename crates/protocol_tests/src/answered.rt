//! The answer to the messages of a proof, for given challenges.

use crate::spelled::bytes_of;
use circuit_core::Circuit;
use field_ext::Fp;
use gkr_verify::{Verdict, challenge_count, check, check_pair};
use proof_wire::{ProofForm, decode_as};
use std::process::Abort;
use std::test::Fail;
use test_circuits::numbers;
use transcript_fs::{Challenges, Given};

/// The answer to bytes of this form, with these challenges.
pub(crate) fn answer_to<R: Abort + AllocGlobal>(
    rt: &R,
    form: ProofForm,
    circuit: &Circuit,
    inputs: &[Fp],
    outputs: &[Fp],
    bytes: &[u8],
    given: &mut Given,
) -> Result<Verdict, Fail> {
    assert!(rt; given.has(challenge_count(circuit)));
    assert!(rt; inputs.len() == circuit.inputs() as usize);
    assert!(rt; outputs.len() == circuit.outputs() as usize);
    let Ok(messages) = decode_as(rt.alloc(), form, bytes, circuit.shape()) else {
        return Err(Fail::new("no messages"));
    };
    let verdict = match form {
        ProofForm::Line => check(rt.alloc(), circuit, inputs, outputs, &messages, given)?,
        ProofForm::Pair => check_pair(rt.alloc(), circuit, inputs, outputs, &messages, given)?,
    };
    Ok(verdict)
}

/// The answer to messages of this form with these coefficients, with these challenges, for one output.
pub(crate) fn answer<R: Abort + AllocGlobal>(
    rt: &R,
    form: ProofForm,
    circuit: &Circuit,
    inputs: &[Fp],
    output: u64,
    coefficients: &[i32],
    challenges: &[i32],
) -> Result<Verdict, Fail> {
    let bytes = bytes_of(rt.alloc(), form, coefficients)?;
    let mut given = Given::of(numbers(rt.alloc(), challenges)?);
    let outputs = [Fp::reduce(output)];
    answer_to(rt, form, circuit, inputs, &outputs, &bytes, &mut given)
}

/// Sees the answer to messages of this form with these coefficients, with these challenges, for one output.
pub(crate) fn sees<R: Abort + AllocGlobal>(
    rt: &R,
    form: ProofForm,
    circuit: &Circuit,
    inputs: &[Fp],
    output: u64,
    coefficients: &[i32],
    challenges: &[i32],
    want: &Verdict,
) -> Result<(), Fail> {
    let verdict = answer(rt, form, circuit, inputs, output, coefficients, challenges)?;
    assert_eq!(rt; verdict, *want);
    Ok(())
}
