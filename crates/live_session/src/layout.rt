//! Messages among the elements that a prover sends.

ghost use Rattle.std.specs.Prelude.{◌≡◌, ◌≤◌, ◌+◌, ◌*◌, ◌^◌, ◌<◌, ℕ, List, [], length, IfOk};
ghost use Rattle.gkr_layers.specs.Layers.{layers_of, lower_exponents};
ghost use Rattle.proof_wire.specs.Lists.{HasShape, HaveShape};
ghost use Rattle.proof_wire.specs.Spelling.{all_coefficients, coefficients_of, layer_coefficients};
ghost use Rattle.std.specs.List.{flat_map};
ghost use Rattle.proof_wire.specs.declared.form.ProofForm.TheVariants.{Line};
ghost use Rattle.live_session.specs.Layout.{sizes_of, whole};
ghost use Rattle.live_session.specs.Verifying.{element_count, lower};

use circuit_core::Circuit;
use field_ext::Ext;
use gkr_layers::width_below;
use proof_wire::{LayerMessages, Listed, Round};
use std::alloc::{AllocError, Global};
use std::mem;

/// How many elements all messages have.
pub(crate) fn elements_due(circuit: &Circuit) -> usize
    ensures value { result ≡ element_count circuit.now.parts }
    ensures most { result < 2 ^ 32 }
{
    7 * width_below(circuit) + circuit.height()
}

/// How many messages are whole in the first `n` elements.
pub(crate) fn whole_messages(circuit: &Circuit, n: usize) -> usize
    ensures { result ≡ whole (sizes_of (lower circuit.now.parts)) n }
{
    let mut count = 0;
    let mut left = n;
    for layer in 0..circuit.height() {
        let k = circuit.coordinates(layer + 1);
        if left < 7 * k + 1 {
            return count + (left / 3).min(2 * k);
        }
        count += 2 * k + 1;
        left -= 7 * k + 1;
    }
    count
}

/// Buffers for all messages of a proof by lines.
pub(crate) fn message_buffers(
    alloc: Global,
    circuit: &Circuit,
) -> Result<Vec<LayerMessages>, AllocError>
    ensures { IfOk result (λ layers. HaveShape Line (lower circuit.now.parts) layers.items) }
{
    let mut layers = Vec::new(alloc);
    for layer in 0..circuit.height() {
        layers.push(layer_buffers(alloc, circuit.coordinates(layer + 1))?)?;
    }
    Ok(layers)
}

/// Buffers for the messages of a layer, where the layer below has `k` coordinates.
fn layer_buffers(alloc: Global, k: usize) -> Result<LayerMessages, AllocError>
    requires { k ≤ 20 }
    ensures { IfOk result (λ layer. HasShape Line k layer) }
{
    let zero = Round::of([Ext::zero(), Ext::zero(), Ext::zero()]);
    Ok(LayerMessages {
        rounds: Listed::of(vec![in alloc; zero; 2 * k]?),
        last: Listed::of(vec![in alloc; Ext::zero(); k + 1]?),
    })
}

/// Writes elements over those of the messages, of which there are as many.
pub(crate) fn fill(alloc: Global, layers: &mut [LayerMessages], elements: &[Ext])
    requires { length elements.now ≡ length (all_coefficients layers.old) }
    ensures filled { all_coefficients layers.new ≡ elements.now }
    ensures shape { (ks : List ℕ) → HaveShape Line ks layers.old → HaveShape Line ks layers.new }
{
    let mut from = 0;
    for layer in layers.iter_mut() {
        let none = LayerMessages {
            rounds: Listed::of(Vec::new(alloc)),
            last: Listed::of(Vec::new(alloc)),
        };
        let buffer = mem::replace(layer, none);
        let next = from + buffer_len(&buffer);
        *layer = filled(buffer, &elements[from..next]);
        from = next;
    }
}

/// How many elements a layer's messages have.
fn buffer_len(layer: &LayerMessages) -> usize
    requires { length (layer_coefficients layer.now) < 2 ^ 64 }
    ensures { result ≡ length (layer_coefficients layer.now) }
{
    3 * layer.rounds.as_slice().len() + layer.last.as_slice().len()
}

/// The same layer's messages with these elements.
fn filled(buffer: LayerMessages, elements: &[Ext]) -> LayerMessages
    requires { length elements.now ≡ length (layer_coefficients buffer) }
    ensures filled { layer_coefficients result ≡ elements.now }
    ensures shape { (k : ℕ) → HasShape Line k buffer → HasShape Line k result }
{
    let LayerMessages { rounds, last } = buffer;
    let mut rounds = rounds.into_vec();
    let mut last = last.into_vec();
    let (of_rounds, of_last) = elements.split_at(3 * rounds.len());
    fill_rounds(&mut rounds, of_rounds);
    last.copy_from_slice(of_last);
    LayerMessages {
        rounds: Listed::of(rounds),
        last: Listed::of(last),
    }
}

/// Writes elements over those of the rounds.
fn fill_rounds(rounds: &mut [Round], elements: &[Ext])
    requires { length elements.now ≡ 3 * length rounds.old }
    ensures { flat_map coefficients_of rounds.new ≡ elements.now }
{
    for i in 0..rounds.len() {
        rounds[i] = Round::of([elements[3 * i], elements[3 * i + 1], elements[3 * i + 2]]);
    }
}
