//! Verdicts on messages for given challenges, by hand.

use crate::answered::{answer, sees};
use circuit_core::Circuit;
use field_ext::Fp;
use gkr_verify::{Verdict, challenge_count};
use proof_wire::ProofForm;
use std::process::Abort;
use std::test::Fail;
use test_circuits::{copy, number, product};

const COPIED: [i32; 8] = [0, -5, 15, 120, -80, -40, 15, 5];

/// Sees the verdict on messages of the copied 5, with these challenges, for an output.
fn sees_of_five<R: Abort + AllocGlobal>(
    rt: &R,
    circuit: &Circuit,
    output: u64,
    messages: &[i32],
    drawn: &[i32],
    want: &Verdict,
) -> Result<(), Fail> {
    let five = [Fp::reduce(5)];
    sees(
        rt,
        ProofForm::Line,
        circuit,
        &five,
        output,
        messages,
        drawn,
        want,
    )
}

/// Sees the verdicts on messages of the copied 5.
fn follows_copies<R: Abort + AllocGlobal>(rt: &R, circuit: &Circuit) -> Result<(), Fail> {
    let drawn = [2, 3, 4, 6];
    assert_eq!(rt; challenge_count(circuit), 4);
    let other_output = Verdict::Sum {
        layer: 0,
        round: 1,
        had: number(10),
        claim: number(12),
    };
    // The rounds' messages exchanged: 120 + 120 - 80 - 40 is not 10.
    let exchanged = Verdict::Sum {
        layer: 0,
        round: 1,
        had: number(120),
        claim: number(10),
    };
    // The wiring polynomial is -24 at the rounds' point: the end is -24 times 15 + 20, and for this line 5 + 20.
    let other_line = Verdict::End {
        layer: 0,
        had: number(-840),
        want: number(-600),
    };
    sees_of_five(rt, circuit, 5, &COPIED, &drawn, &Verdict::Accepted)?;
    sees_of_five(rt, circuit, 6, &COPIED, &drawn, &other_output)?;
    sees_of_five(
        rt,
        circuit,
        5,
        &[120, -80, -40, 0, -5, 15, 15, 5],
        &drawn,
        &exchanged,
    )?;
    sees_of_five(
        rt,
        circuit,
        5,
        &[0, -5, 15, 120, -80, -40, 5, 15],
        &drawn,
        &other_line,
    )
}

#[test]
fn follows_a_copy(rt: HostRuntime) -> Result<(), Fail> {
    let Ok(circuit) = copy(rt.alloc()) else {
        return Err(Fail::new("no circuit"));
    };
    follows_copies(&rt, &circuit)
}

/// Sees whether messages of the copied 5 are accepted for the output 0.
fn passes_or_not<R: Abort + AllocGlobal>(
    rt: &R,
    circuit: &Circuit,
    messages: &[i32],
    drawn: &[i32],
    passes: bool,
) -> Result<(), Fail> {
    let five = [Fp::reduce(5)];
    let verdict = answer(rt, ProofForm::Line, circuit, &five, 0, messages, drawn)?;
    assert!(rt; (verdict == Verdict::Accepted) == passes);
    Ok(())
}

/// Sees that a false round and a false line pass at one challenge each, and not at another.
fn passes_at_exceptional_challenges<R: Abort + AllocGlobal>(
    rt: &R,
    circuit: &Circuit,
) -> Result<(), Fail> {
    let round = [0, -20, 20, 120, -80, -40, 15, 5];
    let line = [0, 0, 0, 0, 0, 0, -20, 40];
    passes_or_not(rt, circuit, &round, &[2, 3, 4, 6], true)?;
    passes_or_not(rt, circuit, &round, &[2, 5, 4, 6], false)?;
    passes_or_not(rt, circuit, &line, &[2, 3, 4, 1], true)?;
    passes_or_not(rt, circuit, &line, &[2, 3, 4, 6], false)
}

/// A false round passes where its challenge is 3, and a false line where its challenge is 1; at other challenges neither
/// does.
#[test]
fn accepts_false_outputs_at_exceptional_challenges(rt: HostRuntime) -> Result<(), Fail> {
    let Ok(circuit) = copy(rt.alloc()) else {
        return Err(Fail::new("no circuit"));
    };
    passes_at_exceptional_challenges(&rt, &circuit)
}

/// Sees which equation fails first for messages of the copied 5 and the output 0.
fn tells_the_first<R: Abort + AllocGlobal>(rt: &R, circuit: &Circuit) -> Result<(), Fail> {
    let end = Verdict::End {
        layer: 0,
        had: number(1),
        want: number(0),
    };
    let input = Verdict::Input {
        had: number(0),
        want: number(5),
    };
    sees_of_five(
        rt,
        circuit,
        0,
        &[0, 0, 0, 1, -2, 0, 0, 0],
        &[0, 0, 0, 0],
        &end,
    )?;
    sees_of_five(rt, circuit, 0, &[0; 8], &[0, 1, 1, 0], &input)
}

#[test]
fn tells_the_first_equation_that_fails(rt: HostRuntime) -> Result<(), Fail> {
    let Ok(circuit) = copy(rt.alloc()) else {
        return Err(Fail::new("no circuit"));
    };
    tells_the_first(&rt, &circuit)
}

/// Sees that messages of the product of 3 and 4 are accepted for an output.
fn accepts_a_product<R: Abort + AllocGlobal>(
    rt: &R,
    circuit: &Circuit,
    output: u64,
) -> Result<(), Fail> {
    let inputs = [Fp::reduce(3), Fp::reduce(4)];
    let messages = [
        0, 12, -12, 0, 12, -12, 0, 0, 0, 3, -3, 0, 4, -4, 0, 3, -3, 0, 4, -4, 0, 0, 0,
    ];
    let accepted = Verdict::Accepted;
    sees(
        rt,
        ProofForm::Line,
        circuit,
        &inputs,
        output,
        &messages,
        &[0; 9],
        &accepted,
    )
}

/// Where the first challenge is 0, another output is accepted too.
#[test]
fn follows_a_product(rt: HostRuntime) -> Result<(), Fail> {
    let Ok(circuit) = product(rt.alloc()) else {
        return Err(Fail::new("no circuit"));
    };
    accepts_a_product(&rt, &circuit, 12)?;
    accepts_a_product(&rt, &circuit, 13)
}
