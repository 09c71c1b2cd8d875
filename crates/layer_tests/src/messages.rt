//! The messages of a layer's rounds for given challenges, by hand.

ghost use Rattle.std.specs.Prelude.{◌≡◌, ◌<◌, [], IfOk, length};
ghost use Rattle.circuit_core.specs.Parts.{height};
ghost use Rattle.circuit_core.specs.Sound.{exponent_at};
ghost use Rattle.circuit_eval.specs.Tables.{FitLayers};

use circuit_core::Circuit;
use circuit_eval::laws::tables_fit;
use circuit_eval::{Values, layer_values};
use field_ext::{Ext, Fp};
use round_tables::GateTables;
use std::marker::Sync;
use std::process::Abort;
use std::test::Fail;
use std::thread::Threads;
use test_circuits::{copy, number, product};

/// The values of a circuit's layers for these inputs.
pub(crate) fn values_of<R: Threads + Sync + AllocGlobal>(
    rt: &R,
    circuit: &Circuit,
    inputs: &[Fp],
) -> Result<Values, Fail>
    ensures { IfOk result (λ values. FitLayers circuit.now.parts values) }
{
    if inputs.len() != circuit.inputs() as usize {
        return Err(Fail::new("another count of inputs"));
    }
    tables_fit();
    Ok(layer_values(rt, rt.alloc(), circuit, inputs)?)
}

/// The message of these coefficients.
pub(crate) fn message(coefficients: [i32; 3]) -> [Ext; 3] {
    let [c0, c1, c2] = coefficients;
    [number(c0), number(c1), number(c2)]
}

/// The element `re + im * i`.
fn element(re: i32, im: i32) -> Ext {
    number(re) + number(im) * Ext::of(Fp::zero(), Fp::one())
}

/// A round of this message and challenge, both in the base field.
fn base_round(coefficients: [i32; 3], challenge: i32) -> ([Ext; 3], Ext) {
    (message(coefficients), number(challenge))
}

/// Sees the message of a round of one piece, and binds the challenge.
fn follows_round<R: Abort>(rt: &R, sum: &mut GateTables<'_>, message: [Ext; 3], challenge: Ext)
    requires { sum.old.lent ≡ [] }
    ensures { sum.new.lent ≡ [] }
{
    assert!(rt; sum.rounds_left() > 0);
    assert_eq!(rt; sum.pieces(), 1);
    assert_eq!(rt; sum.piece_sum(0), message);
    sum.bind(challenge);
    assert!(rt; !sum.is_fresh());
}

/// Sees the messages of all rounds, of one piece each, and binds each challenge.
fn follows<R: Abort>(rt: &R, sum: &mut GateTables<'_>, rounds: &[([Ext; 3], Ext)])
    requires { sum.old.lent ≡ [] }
{
    assert!(rt; sum.is_fresh());
    for (coefficients, challenge) in rounds {
        follows_round(rt, sum, *coefficients, *challenge);
    }
    assert_eq!(rt; sum.rounds_left(), 0);
}

/// Sees the messages of all rounds of a circuit's layer, with the claim at a point.
fn follows_layer<R: Abort + AllocGlobal>(
    rt: &R,
    circuit: &Circuit,
    layer: u32,
    values: &Values,
    point: &[Ext],
    rounds: &[([Ext; 3], Ext)],
) -> Result<(), Fail>
    requires layer { layer < height circuit.now.parts }
    requires values { FitLayers circuit.now.parts values.now }
    requires position { length point.now ≡ exponent_at circuit.now.parts layer }
{
    let mut sum = GateTables::start(rt.alloc(), circuit, layer, values, point)?;
    follows(rt, &mut sum, rounds);
    Ok(())
}

/// Sees the messages of the copy of 5, with the claim at 2.
fn follows_a_copy<R: Threads + Sync + Abort + AllocGlobal>(
    rt: &R,
    circuit: &Circuit,
) -> Result<(), Fail> {
    let point = [number(2)];
    if circuit.height() != 1 || circuit.coordinates(0) != 1 {
        return Err(Fail::new("another circuit"));
    }
    let values = values_of(rt, circuit, &[Fp::reduce(5)])?;
    let rounds = [base_round([0, -5, 15], 3), base_round([120, -80, -40], 4)];
    follows_layer(rt, circuit, 0, &values, &point, &rounds)
}

#[test]
fn copies_one_value(rt: HostRuntime) -> Result<(), Fail> {
    let Ok(circuit) = copy(rt.alloc()) else {
        return Err(Fail::new("no circuit"));
    };
    follows_a_copy(&rt, &circuit)
}

/// Sees the messages of the copy of these values, with a claim at 2 and, four times, at 3.
fn follows_two_points<R: Abort + AllocGlobal>(
    rt: &R,
    circuit: &Circuit,
    values: &Values,
) -> Result<(), Fail>
    requires { FitLayers circuit.now.parts values.now }
{
    let (first, second) = ([number(2)], [number(3)]);
    if circuit.height() != 1 || circuit.coordinates(0) != 1 {
        return Err(Fail::new("another circuit"));
    }
    let four = number(4);
    let mut sum = GateTables::start_two(rt.alloc(), circuit, 0, values, &first, &second, four)?;
    let rounds = [
        base_round([0, -45, 115], 3),
        base_round([900, -600, -300], 4),
    ];
    follows(rt, &mut sum, &rounds);
    Ok(())
}

/// A claim at 2 and, four times, at 3: each message is the one at 2 and four times the one at 3.
#[test]
fn copies_at_two_points(rt: HostRuntime) -> Result<(), Fail> {
    let Ok(circuit) = copy(rt.alloc()) else {
        return Err(Fail::new("no circuit"));
    };
    let values = values_of(&rt, &circuit, &[Fp::reduce(5)])?;
    follows_two_points(&rt, &circuit, &values)
}

/// Sees the messages of the layer of the product of 3 and 4, with the claim at 0, where the padding gate adds 0 to 0.
fn follows_a_product<R: Threads + Sync + Abort + AllocGlobal>(
    rt: &R,
    circuit: &Circuit,
    rounds: &[([Ext; 3], Ext)],
) -> Result<(), Fail> {
    let point = [number(0)];
    if circuit.height() != 2 || circuit.coordinates(1) != 1 {
        return Err(Fail::new("another circuit"));
    }
    let values = values_of(rt, circuit, &[Fp::reduce(3), Fp::reduce(4)])?;
    follows_layer(rt, circuit, 1, &values, &point, rounds)
}

#[test]
fn multiplies_two_values(rt: HostRuntime) -> Result<(), Fail> {
    let Ok(circuit) = product(rt.alloc()) else {
        return Err(Fail::new("no circuit"));
    };
    let (three, four) = ([0, 3, -3], [0, 4, -4]);
    let rounds = [
        base_round(three, 0),
        base_round(four, 0),
        base_round(three, 0),
        base_round(four, 0),
    ];
    follows_a_product(&rt, &circuit, &rounds)
}

/// The values of the tables leave the base field with the first challenge, `i`. By hand: the value of the layer below at `(x, y)` is
/// `3 x (1 - y) + 4 (1 - x) y`, and the gate's share there `(1 - x) (1 - y)`.
#[test]
fn multiplies_at_challenges_outside_the_base_field(rt: HostRuntime) -> Result<(), Fail> {
    let Ok(circuit) = product(rt.alloc()) else {
        return Err(Fail::new("no circuit"));
    };
    let rounds = [
        (message([0, 3, -3]), element(0, 1)),
        (
            [element(3, 3), element(-6, -14), element(3, 11)],
            element(1, 1),
        ),
        (
            [element(-11, -11), element(8, 8), element(3, 3)],
            element(0, 1),
        ),
        (
            [element(-22, -6), element(14, 20), element(8, -14)],
            number(4),
        ),
    ];
    follows_a_product(&rt, &circuit, &rounds)
}
