//! Verdicts on proofs by pairs for given challenges, by hand, and bytes that are none.

use crate::answered::{answer, sees};
use crate::spelled::bytes_of;
use circuit_core::{Circuit, Shape};
use field_ext::{Ext, Fp};
use gkr_verify::Verdict;
use mle_table::BaseTable;
use pair_reduce::{decode_pair, encode_pair, pair_at, proof_len_pair};
use proof_wire::{BadProof, ProofForm, ProofRefused};
use std::alloc::{AllocError, Global};
use std::process::Abort;
use std::test::Fail;
use test_circuits::{copy, number, numbers, product};

const COPIED: [i32; 8] = [0, -5, 15, 120, -80, -40, 15, 20];

/// Sees the verdict on messages of the copied 5, with these challenges, for an output.
fn sees_of_five<R: Abort + AllocGlobal>(
    rt: &R,
    circuit: &Circuit,
    output: u64,
    messages: &[i32],
    drawn: &[i32],
    want: &Verdict,
) -> Result<(), Fail> {
    let five = [Fp::reduce(5)];
    sees(
        rt,
        ProofForm::Pair,
        circuit,
        &five,
        output,
        messages,
        drawn,
        want,
    )
}

/// Sees the verdicts on messages of the copied 5.
fn follows_copies<R: Abort + AllocGlobal>(rt: &R, circuit: &Circuit) -> Result<(), Fail> {
    let drawn = [2, 3, 4, 6];
    let end = Verdict::End {
        layer: 0,
        had: number(-840),
        want: number(-864),
    };
    let sum = Verdict::Sum {
        layer: 0,
        round: 2,
        had: number(122),
        claim: number(120),
    };
    // a pair with the right sum passes the end, and not the inputs
    let input = Verdict::Input {
        had: number(140),
        want: number(135),
    };
    sees_of_five(rt, circuit, 5, &COPIED, &drawn, &Verdict::Accepted)?;
    sees_of_five(
        rt,
        circuit,
        5,
        &[0, -5, 15, 120, -80, -40, 15, 21],
        &drawn,
        &end,
    )?;
    sees_of_five(
        rt,
        circuit,
        5,
        &[0, -5, 15, 121, -80, -40, 15, 20],
        &drawn,
        &sum,
    )?;
    sees_of_five(
        rt,
        circuit,
        5,
        &[0, -5, 15, 120, -80, -40, 14, 21],
        &drawn,
        &input,
    )
}

/// The claim 10 at 2, then 120, then -840; at the end 15 + 6 * 20 = 135.
#[test]
fn follows_a_copy(rt: HostRuntime) -> Result<(), Fail> {
    let Ok(circuit) = copy(rt.alloc()) else {
        return Err(Fail::new("no circuit"));
    };
    follows_copies(&rt, &circuit)
}

/// Sees the verdicts on a false pair of the copied 5.
fn sees_a_false_pair<R: Abort + AllocGlobal>(rt: &R, circuit: &Circuit) -> Result<(), Fail> {
    let messages = [0, 0, 0, 0, 0, 0, -55, 55];
    let input = Verdict::Input {
        had: number(275),
        want: number(135),
    };
    sees_of_five(rt, circuit, 0, &messages, &[2, 3, 4, 2], &Verdict::Accepted)?;
    sees_of_five(rt, circuit, 0, &messages, &[2, 3, 4, 6], &input)
}

/// A false pair passes where its challenge is 2, and at no other.
#[test]
fn accepts_a_false_pair_at_its_exceptional_challenge(rt: HostRuntime) -> Result<(), Fail> {
    let Ok(circuit) = copy(rt.alloc()) else {
        return Err(Fail::new("no circuit"));
    };
    sees_a_false_pair(&rt, &circuit)
}

/// Sees the verdicts on messages of the product of 3 and 4.
fn follows_products<R: Abort + AllocGlobal>(rt: &R, circuit: &Circuit) -> Result<(), Fail> {
    let form = ProofForm::Pair;
    let inputs = [Fp::reduce(3), Fp::reduce(4)];
    let messages = [
        0, -12, 36, 288, -192, -96, 36, -12, 0, 6, 6, 12, -24, 12, 12, -24, 12, 0, -18, 66, -3, 30,
    ];
    let others = [
        0, -12, 36, 288, -192, -96, 36, -12, 0, 6, 6, 12, -24, 12, 12, -24, 12, 0, -18, 66, -2, 30,
    ];
    let drawn = [2, 3, -1, 2, 1, 2, -1, 3, 5];
    sees(
        rt,
        form,
        circuit,
        &inputs,
        12,
        &messages,
        &drawn,
        &Verdict::Accepted,
    )?;
    let verdict = answer(rt, form, circuit, &inputs, 12, &others, &drawn)?;
    assert!(rt; matches!(verdict, Verdict::End { layer: 1, .. }));
    Ok(())
}

/// The second layer's claim is at 3 and, twice, at -1.
#[test]
fn follows_a_product(rt: HostRuntime) -> Result<(), Fail> {
    let Ok(circuit) = product(rt.alloc()) else {
        return Err(Fail::new("no circuit"));
    };
    follows_products(&rt, &circuit)
}

/// The refusal of bytes, or None where they are a proof by pairs over one coordinate.
fn refusal(alloc: Global, bytes: &[u8]) -> Result<Option<ProofRefused>, AllocError> {
    let shape = Shape::of(Vec::from_slice(alloc, &[1, 1])?);
    Ok(decode_pair(alloc, bytes, &shape).err())
}

/// Sees why bytes are refused.
fn refuses<R: Abort + AllocGlobal>(rt: &R, bytes: &[u8], bad: BadProof) -> Result<(), Fail> {
    let refused = refusal(rt.alloc(), bytes)?;
    assert_eq!(rt; refused, Some(ProofRefused::Bad(bad)));
    Ok(())
}

/// Sees that bytes of a proof are written as they were read, for a circuit of this shape.
fn writes_again<R: Abort + AllocGlobal>(rt: &R, shape: &Shape, bytes: &[u8]) -> Result<(), Fail> {
    let Ok(read) = decode_pair(rt.alloc(), bytes, shape) else {
        return Err(Fail::new("no messages"));
    };
    let again = encode_pair(rt.alloc(), &read)?;
    assert!(rt; again.as_slice() == bytes);
    Ok(())
}

#[test]
fn reads_and_writes_bytes(rt: HostRuntime) -> Result<(), Fail> {
    let bytes = bytes_of(rt.alloc(), ProofForm::Pair, &COPIED)?;
    let shape = Shape::of(Vec::from_slice(rt.alloc(), &[1, 1])?);
    writes_again(&rt, &shape, &bytes)
}

/// Sees that each prefix of less than 68 bytes is refused as short.
fn refuses_prefixes<R: Abort + AllocGlobal>(rt: &R, bytes: &[u8]) -> Result<(), Fail> {
    for at in 0..68 {
        let short = BadProof::Short { at, need: 68 };
        refuses(rt, bytes.get(..at).unwrap_or(b""), short)?;
    }
    Ok(())
}

#[test]
fn refuses_each_prefix(rt: HostRuntime) -> Result<(), Fail> {
    let bytes = bytes_of(rt.alloc(), ProofForm::Pair, &COPIED)?;
    refuses_prefixes(&rt, &bytes)
}

/// Sees why bytes of this form with these coefficients are refused.
fn refuses_bytes_of<R: Abort + AllocGlobal>(
    rt: &R,
    form: ProofForm,
    coefficients: &[i32],
    bad: BadProof,
) -> Result<(), Fail> {
    let bytes = bytes_of(rt.alloc(), form, coefficients)?;
    refuses(rt, &bytes, bad)
}

#[test]
fn refuses_more_bytes_and_other_magic(rt: HostRuntime) -> Result<(), Fail> {
    refuses_bytes_of(&rt, ProofForm::Line, &COPIED, BadProof::Magic { at: 3 })?;
    refuses_bytes_of(&rt, ProofForm::Pair, &[0; 9], BadProof::Long { extra: 8 })
}

/// Sees the length of a proof by pairs for the copy.
fn tells_length_of_a_copy<R: Abort + AllocGlobal>(rt: &R) -> Result<(), Fail> {
    let copy = Shape::of(Vec::from_slice(rt.alloc(), &[1, 1])?);
    assert_eq!(rt; proof_len_pair(&copy), 68);
    Ok(())
}

/// Sees the length of a proof by pairs for the product.
fn tells_length_of_a_product<R: Abort + AllocGlobal>(rt: &R) -> Result<(), Fail> {
    let product = Shape::of(Vec::from_slice(rt.alloc(), &[1, 1, 2])?);
    assert_eq!(rt; proof_len_pair(&product), 180);
    Ok(())
}

/// Sees the length of a proof by pairs for a circuit with more coordinates.
fn tells_length_of_more<R: Abort + AllocGlobal>(rt: &R) -> Result<(), Fail> {
    let higher = Shape::of(Vec::from_slice(rt.alloc(), &[1, 2, 3])?);
    assert_eq!(rt; proof_len_pair(&higher), 276);
    Ok(())
}

#[test]
fn tells_lengths_by_pairs(rt: HostRuntime) -> Result<(), Fail> {
    tells_length_of_a_copy(&rt)?;
    tells_length_of_a_product(&rt)?;
    tells_length_of_more(&rt)
}

/// Sees the values of the table of 0, 3, 4, 0 at (2, -1) and at (3, 5).
fn sees_both_values<R: Abort + AllocGlobal>(rt: &R, table: &BaseTable) -> Result<(), Fail> {
    if table.k() != 2 {
        return Err(Fail::new("another size"));
    }
    let (b, c): ([Ext; 2], [Ext; 2]) = ([number(2), number(-1)], [number(3), number(5)]);
    let pair = pair_at(rt.alloc(), table, &b, &c)?;
    // 3 * 2 * 2 + 4 * -1 * -1, and 3 * 3 * -4 + 4 * -2 * 5
    assert_eq!(rt; pair, [number(16), number(-76)]);
    Ok(())
}

/// The extension of 0, 3, 4, 0 at (2, -1) and at (3, 5).
#[test]
fn gives_the_values_at_both_points(rt: HostRuntime) -> Result<(), Fail> {
    let zero = Fp::zero();
    let values = vec![in rt.alloc(); zero, Fp::reduce(3), Fp::reduce(4), zero]?;
    sees_both_values(&rt, &BaseTable::of(values))
}
