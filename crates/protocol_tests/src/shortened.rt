//! Proofs of version 2 for given challenges, by hand: what is filled in, verdicts, and the first round that doesn't add.

ghost use Rattle.std.specs.Prelude.{◌<◌};

use crate::spelled::{bytes_of, short_bytes};
use circuit_core::Circuit;
use field_ext::Fp;
use gkr_verify::{LayerSum, Verdict, challenge_count, check_two, fill, first_sum};
use proof_two::{decode_two, encode_two, shorten};
use proof_wire::{Messages, ProofForm, decode, encode};
use std::process::Abort;
use std::test::Fail;
use test_circuits::{copy, number, numbers, product};
use transcript_fs::{Challenges, Given};

/// The answer to the bytes of a proof of version 2, with these challenges.
fn answer_two_to<R: Abort + AllocGlobal>(
    rt: &R,
    circuit: &Circuit,
    inputs: &[Fp],
    outputs: &[Fp],
    bytes: &[u8],
    given: &mut Given,
) -> Result<Verdict, Fail> {
    assert!(rt; given.has(challenge_count(circuit)));
    assert!(rt; inputs.len() == circuit.inputs() as usize);
    assert!(rt; outputs.len() == circuit.outputs() as usize);
    let Ok(pairs) = decode_two(rt.alloc(), bytes, circuit.shape()) else {
        return Err(Fail::new("no messages"));
    };
    Ok(check_two(rt.alloc(), circuit, inputs, outputs, &pairs, given)?)
}

/// The answer to a proof of version 2 with these coefficients, with these challenges, for one output.
fn answer_two<R: Abort + AllocGlobal>(
    rt: &R,
    circuit: &Circuit,
    inputs: &[Fp],
    output: u64,
    coefficients: &[i32],
    challenges: &[i32],
) -> Result<Verdict, Fail> {
    let bytes = short_bytes(rt.alloc(), coefficients)?;
    let mut given = Given::of(numbers(rt.alloc(), challenges)?);
    answer_two_to(
        rt,
        circuit,
        inputs,
        &[Fp::reduce(output)],
        &bytes,
        &mut given,
    )
}

/// Sees the answer to a proof of version 2 with these coefficients, with these challenges, for one output.
fn sees_two<R: Abort + AllocGlobal>(
    rt: &R,
    circuit: &Circuit,
    inputs: &[Fp],
    output: u64,
    coefficients: &[i32],
    challenges: &[i32],
    want: &Verdict,
) -> Result<(), Fail> {
    let verdict = answer_two(rt, circuit, inputs, output, coefficients, challenges)?;
    assert_eq!(rt; verdict, *want);
    Ok(())
}

/// The messages of version 1 that the bytes of a proof of version 2 are filled in to.
fn filled_to<R: Abort + AllocGlobal>(
    rt: &R,
    circuit: &Circuit,
    outputs: &[Fp],
    bytes: &[u8],
    given: &mut Given,
) -> Result<Messages, Fail> {
    assert!(rt; given.has(challenge_count(circuit)));
    assert!(rt; outputs.len() == circuit.outputs() as usize);
    let Ok(pairs) = decode_two(rt.alloc(), bytes, circuit.shape()) else {
        return Err(Fail::new("no messages"));
    };
    Ok(fill(rt.alloc(), circuit, outputs, &pairs, given)?)
}

/// Sees that messages are shortened to these bytes of version 2.
fn shortens<R: Abort + AllocGlobal>(rt: &R, messages: &Messages, bytes: &[u8]) -> Result<(), Fail> {
    let pairs = shorten(rt.alloc(), messages)?;
    let again = encode_two(rt.alloc(), &pairs)?;
    assert!(rt; again.as_slice() == bytes);
    Ok(())
}

/// Sees that messages are those of version 1 with these coefficients.
fn spells<R: Abort + AllocGlobal>(
    rt: &R,
    messages: &Messages,
    coefficients: &[i32],
) -> Result<(), Fail> {
    let had = encode(rt.alloc(), messages)?;
    let want = bytes_of(rt.alloc(), ProofForm::Line, coefficients)?;
    assert!(rt; had.as_slice() == want.as_slice());
    Ok(())
}

/// Sees that the bytes of a proof of version 2 are filled in to these coefficients of version 1, and shortened again.
fn fills_bytes<R: Abort + AllocGlobal>(
    rt: &R,
    circuit: &Circuit,
    outputs: &[Fp],
    bytes: &[u8],
    given: &mut Given,
    whole: &[i32],
) -> Result<(), Fail> {
    let messages = filled_to(rt, circuit, outputs, bytes, given)?;
    shortens(rt, &messages, bytes)?;
    spells(rt, &messages, whole)
}

/// Sees that a proof of version 2 with these coefficients is filled in to those of version 1, with these challenges.
fn fills<R: Abort + AllocGlobal>(
    rt: &R,
    circuit: &Circuit,
    output: u64,
    coefficients: &[i32],
    challenges: &[i32],
    whole: &[i32],
) -> Result<(), Fail> {
    let bytes = short_bytes(rt.alloc(), coefficients)?;
    let mut given = Given::of(numbers(rt.alloc(), challenges)?);
    fills_bytes(
        rt,
        circuit,
        &[Fp::reduce(output)],
        &bytes,
        &mut given,
        whole,
    )
}

/// The first round of the bytes of a proof of version 1 that doesn't add to its claim.
fn first_in<R: Abort + AllocGlobal>(
    rt: &R,
    circuit: &Circuit,
    outputs: &[Fp],
    bytes: &[u8],
    given: &mut Given,
) -> Result<Option<LayerSum>, Fail> {
    assert!(rt; given.has(challenge_count(circuit)));
    assert!(rt; outputs.len() == circuit.outputs() as usize);
    let Ok(messages) = decode(rt.alloc(), bytes, circuit.shape()) else {
        return Err(Fail::new("no messages"));
    };
    Ok(first_sum(rt.alloc(), circuit, outputs, &messages, given)?)
}

/// The first round of a proof of version 1 with these coefficients that doesn't add to its claim.
fn first_of<R: Abort + AllocGlobal>(
    rt: &R,
    circuit: &Circuit,
    output: u64,
    coefficients: &[i32],
    challenges: &[i32],
) -> Result<Option<LayerSum>, Fail> {
    let bytes = bytes_of(rt.alloc(), ProofForm::Line, coefficients)?;
    let mut given = Given::of(numbers(rt.alloc(), challenges)?);
    first_in(rt, circuit, &[Fp::reduce(output)], &bytes, &mut given)
}

/// Sees which round of a proof of version 1 is the first that doesn't add to its claim.
fn sees_first<R: Abort + AllocGlobal>(
    rt: &R,
    circuit: &Circuit,
    output: u64,
    coefficients: &[i32],
    challenges: &[i32],
    want: &Option<LayerSum>,
) -> Result<(), Fail> {
    let first = first_of(rt, circuit, output, coefficients, challenges)?;
    assert_eq!(rt; first, *want);
    Ok(())
}

/// Sees what the proof of the copied 5 is filled in to, and verdicts on it and on others.
fn follows_copies<R: Abort + AllocGlobal>(rt: &R, circuit: &Circuit) -> Result<(), Fail> {
    let five = [Fp::reduce(5)];
    let drawn = [2, 3, 4, 6];
    let short = [0, 15, 120, -40, 15, 5];
    let whole = [0, -5, 15, 120, -80, -40, 15, 5];
    // a line of another sum fails at the end, and one that bends elsewhere at the inputs
    let end = Verdict::End {
        layer: 0,
        had: number(-840),
        want: number(-864),
    };
    let input = Verdict::Input {
        had: number(56),
        want: number(45),
    };
    fills(rt, circuit, 5, &short, &drawn, &whole)?;
    sees_first(rt, circuit, 5, &whole, &drawn, &None)?;
    sees_two(rt, circuit, &five, 5, &short, &drawn, &Verdict::Accepted)?;
    sees_two(
        rt,
        circuit,
        &five,
        5,
        &[0, 15, 120, -40, 15, 6],
        &drawn,
        &end,
    )?;
    sees_two(
        rt,
        circuit,
        &five,
        5,
        &[0, 15, 120, -40, 14, 7],
        &drawn,
        &input,
    )
}

/// The claim 10 at 2, then 120, then -840; at the end 15 and 20 are said, and 45 at 9.
#[test]
fn follows_a_copy(rt: HostRuntime) -> Result<(), Fail> {
    let Ok(circuit) = copy(rt.alloc()) else {
        return Err(Fail::new("no circuit"));
    };
    follows_copies(&rt, &circuit)
}

/// Sees the verdicts on a false end and on false inputs of the copied 5.
fn refuses_copies<R: Abort + AllocGlobal>(rt: &R, circuit: &Circuit) -> Result<(), Fail> {
    let five = [Fp::reduce(5)];
    let end = Verdict::End {
        layer: 0,
        had: number(1),
        want: number(0),
    };
    let input = Verdict::Input {
        had: number(0),
        want: number(5),
    };
    sees_two(
        rt,
        circuit,
        &five,
        0,
        &[0, 0, 1, 0, 0, 0],
        &[0, 0, 0, 0],
        &end,
    )?;
    sees_two(
        rt,
        circuit,
        &five,
        0,
        &[0, 0, 0, 0, 0, 0],
        &[0, 1, 1, 0],
        &input,
    )
}

/// The middle coefficients are 0 and -2, so that every claim is 0 but the last.
#[test]
fn refuses_a_false_end_and_false_inputs(rt: HostRuntime) -> Result<(), Fail> {
    let Ok(circuit) = copy(rt.alloc()) else {
        return Err(Fail::new("no circuit"));
    };
    refuses_copies(&rt, &circuit)
}

const MULTIPLIED: [i32; 23] = [
    0, 12, -12, 0, 12, -12, 0, 0, 0, 3, -3, 0, 4, -4, 0, 3, -3, 0, 4, -4, 0, 0, 0,
];

/// Sees the verdict on the proof of the product of 3 and 4, and what it is filled in to.
fn follows_products<R: Abort + AllocGlobal>(rt: &R, circuit: &Circuit) -> Result<(), Fail> {
    let inputs = [Fp::reduce(3), Fp::reduce(4)];
    let short = [0, -12, 0, -12, 0, 0, 0, -3, 0, -4, 0, -3, 0, -4, 0, 0, 0];
    let drawn = [0; 9];
    sees_two(rt, circuit, &inputs, 12, &short, &drawn, &Verdict::Accepted)?;
    fills(rt, circuit, 12, &short, &drawn, &MULTIPLIED)?;
    sees_first(rt, circuit, 12, &MULTIPLIED, &drawn, &None)
}

#[test]
fn follows_a_product(rt: HostRuntime) -> Result<(), Fail> {
    let Ok(circuit) = product(rt.alloc()) else {
        return Err(Fail::new("no circuit"));
    };
    follows_products(&rt, &circuit)
}

/// Sees that the round whose message has 1 at this place is named.
fn names_the_round<R: Abort + AllocGlobal>(
    rt: &R,
    circuit: &Circuit,
    place: usize,
    layer: usize,
    round: usize,
) -> Result<(), Fail>
    requires { place < 23 }
{
    let mut messages = MULTIPLIED;
    messages[place] = 1;
    let fault = LayerSum {
        layer,
        round,
        had: number(2),
        claim: number(0),
    };
    sees_first(rt, circuit, 12, &messages, &[0; 9], &Some(fault))
}

/// Sees that each of five rounds is named.
fn names_rounds<R: Abort + AllocGlobal>(rt: &R, circuit: &Circuit) -> Result<(), Fail> {
    names_the_round(rt, circuit, 0, 0, 1)?;
    names_the_round(rt, circuit, 3, 0, 2)?;
    names_the_round(rt, circuit, 8, 1, 1)?;
    names_the_round(rt, circuit, 14, 1, 3)?;
    names_the_round(rt, circuit, 17, 1, 4)
}

/// The value at 0 of a message comes twice in its sum; all claims are 0.
#[test]
fn names_the_first_round_that_does_not_add(rt: HostRuntime) -> Result<(), Fail> {
    let Ok(circuit) = product(rt.alloc()) else {
        return Err(Fail::new("no circuit"));
    };
    names_rounds(&rt, &circuit)
}
