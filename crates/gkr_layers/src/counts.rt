//! How many challenges there are, and how many of them can be exceptional.

ghost use Rattle.std.specs.Prelude.{◌≡◌, ◌≤◌, ◌+◌, ◌*◌};
ghost use Rattle.circuit_core.specs.Parts.{height};
ghost use Rattle.circuit_core.specs.Sound.{exponent_at};
ghost use Rattle.gkr_layers.specs.Layers.{layers_of, challenges_of, total_exponent};
ghost use Rattle.gkr_layers.specs.Soundness.{sum_of_bounds};
ghost use Rattle.proof_wire.specs.declared.form.ProofForm.TheVariants.{Line, Pair};

use circuit_core::Circuit;

/// How many challenges the proof of a circuit takes: one for each coordinate of the output point, and one after each
/// message.
pub fn challenge_count(circuit: &Circuit) -> usize
    ensures { result ≡ challenges_of circuit.now.parts }
{
    circuit.coordinates(0) + 2 * width_below(circuit) + circuit.height()
}

/// The sum of the bounds on how many challenges are exceptional, by lines: 1 for each coordinate of the output point, and
/// for each layer below 2 for each of its rounds and its number of coordinates for its line.
#[tactic(auto, using(crate::proofs::Few::line_bounds_add))]
pub fn bound_sum(circuit: &Circuit) -> usize
    ensures { result ≡ sum_of_bounds Line (exponent_at circuit.now.parts 0)
        (layers_of circuit.now.parts) }
{
    circuit.coordinates(0) + 5 * width_below(circuit)
}

/// The same by pairs: 1 for each coordinate of the output point, and for each layer below 2 for each of its rounds and 1 for
/// its pair.
pub fn bound_sum_pair(circuit: &Circuit) -> usize
    ensures { result ≡ sum_of_bounds Pair (exponent_at circuit.now.parts 0)
        (layers_of circuit.now.parts) }
{
    circuit.coordinates(0) + 4 * width_below(circuit) + circuit.height()
}

/// The coordinates of the layers below the outputs, together.
pub fn width_below(circuit: &Circuit) -> usize
    ensures sum { result ≡ total_exponent (layers_of circuit.now.parts) }
    ensures most { result ≤ 20 * height circuit.now.parts }
{
    let mut width = 0;
    for layer in 0..circuit.height() {
        width += circuit.coordinates(layer + 1);
    }
    width
}
