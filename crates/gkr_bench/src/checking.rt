//! What the verifier takes, with the wiring polynomials by the runs of each layer's gates and by a walk over them.

ghost use Rattle.std.specs.Prelude.{◌≡◌, drop, IfOk, IfSome};
ghost use Rattle.circuit_core.specs.Sound.{exponents};
ghost use Rattle.proof_wire.specs.Lists.{HaveShape};
ghost use Rattle.run_wiring.specs.CircuitRuns.{AreWiringsOf};

use crate::circuits::{compiled, gates};
use bench_parts::{Random, Ratio, microseconds_since};
use case_text::{Form, read_case};
use circuit_core::{Circuit, Layer, Leaf};
use field_ext::{Ext, Fp};
use gkr_verify::{Verdict, check_as};
use proof_wire::{Messages, ProofForm, decode_as, proof_len_as};
use run_wiring::{LayerWiring, runs_of, wirings};
use std::alloc::{AllocError, Global};
use std::io;
use std::io::Read;
use std::time::Instant;
use transcript_fs::laws::always_has;
use transcript_fs::{Statement, Transcript};
use wiring_poly::wiring_at;

/// How many layers of random gates a circuit has.
const LAYERS: u32 = 8;

/// The bytes of a proof of this form whose messages are zeros.
fn zero_bytes(alloc: Global, form: ProofForm, circuit: &Circuit) -> Result<Vec<u8>, AllocError> {
    let magic = match form {
        ProofForm::Line => b"GKR1",
        ProofForm::Pair => b"GKRP",
    };
    let mut bytes = Vec::from_slice(alloc, magic)?;
    bytes.resize(proof_len_as(form, circuit.shape()) as usize, 0)?;
    Ok(bytes)
}

/// Messages of zeros of this form. Where each input is zero, and each constant too, they are the honest ones.
fn zeros(alloc: Global, form: ProofForm, circuit: &Circuit) -> Result<Option<Messages>, AllocError>
    ensures { IfOk result (λ found. IfSome found
        (λ messages. HaveShape form (drop 1 (exponents circuit.now.parts)) messages.layers)) }
{
    let bytes = zero_bytes(alloc, form, circuit)?;
    match decode_as(alloc, form, &bytes, circuit.shape()) {
        Ok(messages) => Ok(Some(messages)),
        Err(_) => Ok(None),
    }
}

/// Checks the messages against inputs and outputs of zeros, with the transcript's challenges.
fn verdict_on(
    alloc: Global,
    form: ProofForm,
    circuit: &Circuit,
    messages: &Messages,
) -> Result<Verdict, AllocError>
    requires { HaveShape form (drop 1 (exponents circuit.now.parts)) messages.now.layers }
{
    let inputs = vec![in alloc; Fp::zero(); circuit.inputs() as usize]?;
    let outputs = vec![in alloc; Fp::zero(); circuit.outputs() as usize]?;
    always_has();
    let statement = Statement::of(b"", &inputs, &outputs);
    let mut challenges = Transcript::start(&statement);
    check_as(
        alloc,
        form,
        circuit,
        &inputs,
        &outputs,
        messages,
        &mut challenges,
    )
}

/// How many microseconds a check of messages of this form took. None where they aren't accepted.
fn time_check(
    rt: &HostRuntime,
    form: ProofForm,
    circuit: &Circuit,
    messages: &Messages,
) -> io::Result<Option<u64>>
    requires { HaveShape form (drop 1 (exponents circuit.now.parts)) messages.now.layers }
{
    let begun = Instant::now(rt)?;
    let verdict = verdict_on(rt.alloc(), form, circuit, messages)?;
    let time = microseconds_since(rt, begun)?;
    if verdict != Verdict::Accepted {
        return Ok(None);
    }
    Ok(Some(time))
}

/// The best of ten such times.
fn least_check(
    rt: &HostRuntime,
    form: ProofForm,
    circuit: &Circuit,
    messages: &Messages,
) -> io::Result<Option<u64>>
    requires { HaveShape form (drop 1 (exponents circuit.now.parts)) messages.now.layers }
{
    let mut taken = u64::MAX;
    for _ in 0..10u32 {
        let Some(time) = time_check(rt, form, circuit, messages)? else {
            return Ok(None);
        };
        taken = taken.min(time);
    }
    Ok(Some(taken))
}

/// How many microseconds a check of a proof of this form took, the best of ten. None where it isn't accepted.
fn checking(rt: &HostRuntime, form: ProofForm, circuit: &Circuit) -> io::Result<Option<u64>> {
    match zeros(rt.alloc(), form, circuit)? {
        Some(messages) => least_check(rt, form, circuit, &messages),
        None => Ok(None),
    }
}

/// A point of as many coordinates as the widest layer may have.
fn point() -> [Ext; 20] {
    let mut random = Random::of(7);
    let mut coordinates = [Ext::zero(); 20];
    for j in 0..20 {
        coordinates[j] = random.element();
    }
    coordinates
}

/// The wiring polynomials of each layer as the verifier evaluates them, of which a digest is left.
fn by_wirings(circuit: &Circuit, wirings: &[LayerWiring]) -> u32
    requires { AreWiringsOf circuit.now.parts wirings.now }
{
    let coordinates = point();
    let mut seen = 0;
    for layer in 0..circuit.height() {
        let z = &coordinates[..circuit.coordinates(layer)];
        let operand = &coordinates[..circuit.coordinates(layer + 1)];
        let (add, mul) = wirings[layer].at(circuit, layer, z, operand, operand);
        seen ^= add.re().value() ^ mul.im().value();
    }
    seen
}

/// The same by a walk over the gates of each layer.
fn by_gates(circuit: &Circuit) -> u32 {
    let coordinates = point();
    let mut seen = 0;
    for layer in 0..circuit.height() {
        let z = &coordinates[..circuit.coordinates(layer)];
        let operand = &coordinates[..circuit.coordinates(layer + 1)];
        let (add, mul) = wiring_at(circuit, layer as u32, z, operand, operand);
        seen ^= add.re().value() ^ mul.im().value();
    }
    seen
}

/// Microseconds for the wiring polynomials of all layers: finding the runs, going over them, and walking over the gates.
#[derive(Clone, Copy)]
struct Wired {
    finding: u64,
    runs: u64,
    gates: u64,
    seen: u32,
}

/// What going over these runs and walking over the gates took, where finding the runs took so long.
fn time_wirings(
    rt: &HostRuntime,
    circuit: &Circuit,
    wirings: &[LayerWiring],
    finding: u64,
) -> io::Result<Wired>
    requires { AreWiringsOf circuit.now.parts wirings.now }
{
    let begun = Instant::now(rt)?;
    let by_wirings = by_wirings(circuit, wirings);
    let runs = microseconds_since(rt, begun)?;
    let begun = Instant::now(rt)?;
    let by_gates = by_gates(circuit);
    Ok(Wired {
        finding,
        runs,
        gates: microseconds_since(rt, begun)?,
        seen: by_wirings ^ by_gates,
    })
}

/// What the wiring polynomials took once.
fn time_wiring(rt: &HostRuntime, circuit: &Circuit) -> io::Result<Wired> {
    let begun = Instant::now(rt)?;
    let wirings = wirings(rt.alloc(), circuit)?;
    let finding = microseconds_since(rt, begun)?;
    time_wirings(rt, circuit, &wirings, finding)
}

/// The least of ten times each, in turns.
fn wiring(rt: &HostRuntime, circuit: &Circuit) -> io::Result<Wired> {
    let mut least = Wired {
        finding: u64::MAX,
        runs: u64::MAX,
        gates: u64::MAX,
        seen: 0,
    };
    for _ in 0..10u32 {
        let wired = time_wiring(rt, circuit)?;
        least = Wired {
            finding: least.finding.min(wired.finding),
            runs: least.runs.min(wired.runs),
            gates: least.gates.min(wired.gates),
            seen: wired.seen,
        };
    }
    Ok(least)
}

/// Prints what checking a circuit took, without the end of the line.
fn print_runs_times(
    rt: &HostRuntime,
    kind: &str,
    circuit: &Circuit,
    checked: u64,
    wired: Wired,
) -> io::Result<()> {
    print!(rt;
        "{}: {} layers of {} gates, checked in {} us: runs found in {} us, wiring in {} us; ",
        kind,
        circuit.height(),
        gates(circuit),
        checked,
        wired.finding,
        wired.runs
    )
}

/// Prints what checking it would take by a walk over the gates of each layer, which follows on that line.
fn print_walks(rt: &HostRuntime, checked: u64, wired: Wired) -> io::Result<()> {
    let rest = checked.saturating_sub(wired.finding.saturating_add(wired.runs));
    let walked = rest.saturating_add(wired.gates).clamp(1, 1_000_000_000_000);
    print!(rt;
        "by walks {} us, checked in {} us, ratio {}; ",
        wired.gates,
        walked,
        Ratio::of(checked, walked)
    )
}

/// Prints what checking it took by pairs, which ends the line.
fn print_pairs(rt: &HostRuntime, checked: u64, paired: u64, seen: u32) -> io::Result<()> {
    println!(rt;
        "by pairs in {} us, ratio {} ({})",
        paired,
        Ratio::of(paired, checked),
        seen
    )
}

/// Prints what checking a circuit took.
fn print_checked(rt: &HostRuntime, kind: &str, circuit: &Circuit) -> io::Result<()> {
    let Some(checked) = checking(rt, ProofForm::Line, circuit)? else {
        return println!(rt; "{}: not accepted", kind);
    };
    let Some(paired) = checking(rt, ProofForm::Pair, circuit)? else {
        return println!(rt; "{}: not accepted by pairs", kind);
    };
    let wired = wiring(rt, circuit)?;
    print_runs_times(rt, kind, circuit, checked, wired)?;
    print_walks(rt, checked, wired)?;
    print_pairs(rt, checked, paired, wired.seen)
}

/// Prints what checking a program's circuit took.
pub fn program(rt: &HostRuntime, kind: &str, text: &[u8]) -> io::Result<()> {
    match compiled(rt.alloc(), text) {
        Some(circuit) => print_checked(rt, kind, &circuit),
        None => println!(rt; "{}: the program has no circuit", kind),
    }
}

/// Layers of `2^k` random gates.
fn random_layers(alloc: Global, k: u32) -> Result<Vec<Layer>, AllocError> {
    let mut random = Random::of(1);
    let mut layers = Vec::new(alloc);
    for _ in 0..LAYERS {
        layers.push(Layer::of(random.gates(alloc, k)?))?;
    }
    Ok(layers)
}

/// So many inputs.
fn input_leaves(alloc: Global, count: u32) -> Result<Vec<Leaf>, AllocError> {
    let mut leaves = vec![in alloc; Leaf::Input(0); count as usize]?;
    for j in 0..count {
        leaves[j as usize] = Leaf::Input(j);
    }
    Ok(leaves)
}

/// Layers of `2^k` random gates over `2^k` positions.
pub(crate) fn tangled(alloc: Global, k: u32) -> Result<Option<Circuit>, AllocError> {
    let layers = random_layers(alloc, k)?;
    let width = 1u32 << k.clamp(1, 20);
    let leaves = input_leaves(alloc, width - 1)?;
    let outputs = (width - 1).max(1);
    Ok(Circuit::of(alloc, layers, width, leaves, width, outputs).ok())
}

/// Prints what checking layers of random gates took.
pub fn random(rt: &HostRuntime, k: u32) -> io::Result<()> {
    match tangled(rt.alloc(), k)? {
        Some(circuit) => print_checked(rt, "random", &circuit),
        None => println!(rt; "random: no layers of that size"),
    }
}

/// Prints the runs of a layer of a circuit, where it is one, and how the verifier goes over them.
fn print_layer(
    rt: &HostRuntime,
    circuit: &Circuit,
    layer: usize,
    wiring: &LayerWiring,
) -> io::Result<()> {
    if layer >= circuit.height() {
        return Ok(());
    }
    let how = match wiring {
        LayerWiring::Runs(_) => "by runs",
        LayerWiring::Gates => "by gates",
    };
    let runs = runs_of(rt.alloc(), circuit, layer)?;
    println!(rt;
        "layer {}: {} gates, {} runs, {}",
        layer,
        circuit.width(layer),
        runs.runs().len(),
        how
    )
}

/// Prints the runs of each layer of a circuit, for these wirings.
fn print_wirings(rt: &HostRuntime, circuit: &Circuit, wirings: &[LayerWiring]) -> io::Result<()> {
    for (layer, wiring) in wirings.iter().enumerate() {
        print_layer(rt, circuit, layer, wiring)?;
    }
    Ok(())
}

/// Prints the runs of each layer of a circuit.
fn print_runs(rt: &HostRuntime, circuit: &Circuit) -> io::Result<()> {
    let wirings = wirings(rt.alloc(), circuit)?;
    print_wirings(rt, circuit, &wirings)
}

/// Prints the runs of each layer of a program's circuit.
fn print_program(rt: &HostRuntime, text: &[u8]) -> io::Result<()> {
    match compiled(rt.alloc(), text) {
        Some(circuit) => print_runs(rt, &circuit),
        None => println!(rt; "runs: the program has no circuit"),
    }
}

/// Prints the runs of each layer of the circuit of a case.
fn print_case(rt: &HostRuntime, text: &[u8]) -> io::Result<()> {
    match read_case(rt.alloc(), text, Form::Any) {
        Ok(case) => print_program(rt, case.program()),
        Err(_) => println!(rt; "runs: no case"),
    }
}

/// Prints the runs of each layer of the circuit of the case on the standard input.
pub fn runs(rt: &HostRuntime) -> io::Result<()> {
    let mut bytes = Vec::new(rt.alloc());
    rt.reader().read_to_end(&mut bytes)?;
    print_case(rt, &bytes)
}
