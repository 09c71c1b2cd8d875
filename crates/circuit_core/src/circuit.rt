//! Circuits.

ghost use Rattle.std.specs.Prelude.{◌≡◌, ◌<◌, ◌≤◌, ◌+◌, IsTrue, is_none, length, slice_index_or, [], All, IfOk, IfErr, None};
ghost use Rattle.circuit_core.specs.Parts.{height, width_of, gate_of, IsOver};
ghost use Rattle.circuit_core.specs.Faults.{fault_of, IsLeafWithin};
ghost use Rattle.circuit_core.specs.Sound.{exponent_at, exponents, greatest, leaf_at};

use crate::fault::CircuitRefused;
use crate::gate::{CircuitGate, Layer, Leaf};
use crate::lists::Lists;
use crate::shape::Shape;
use std::alloc::{AllocError, Global};
use std::marker::Model;

/// A layered circuit with no fault.
#[derive(Drop)]
pub struct Circuit {
    lists: Lists,
    shape: Shape,
    ghost faultless: { IsTrue (is_none (fault_of greatest lists)) },
    ghost has_output: { 1 ≤ lists.outputs },
    ghost shaped: { shape.ks ≡ exponents lists },
}

impl Model for Circuit {
    ghost use Rattle.circuit_core.specs.Sound.{SoundCircuit};

    ghost Value = { SoundCircuit };

    ghost view = { λ c. record {
      parts = c.lists;
      faultless = c.faultless;
      has_output = c.has_output;
    } };
}

impl Circuit {
    ghost use Rattle.circuit_core.specs.Faults.{IsCauseOf};

    /// A circuit of layers, the output layer first, over a padded input layer of leaves. `Bad` comes with the first fault, in
    /// the order depth, widths, zero gates, operands, leaves; `Memory` only where no memory is found.
    pub fn of(
        alloc: Global,
        layers: Vec<Layer>,
        input_width: u32,
        leaves: Vec<Leaf>,
        inputs: u32,
        outputs: u32,
    ) -> Result<Circuit, CircuitRefused>
        requires { 1 ≤ outputs }
        ensures made { IfOk result (λ c. c.parts ≡ record {
          layers = layers.items;
          input_width = input_width;
          leaves = leaves.items;
          inputs = inputs;
          outputs = outputs;
        }) }
        ensures refused { IfErr result (IsCauseOf greatest (record {
          layers = layers.items;
          input_width = input_width;
          leaves = leaves.items;
          inputs = inputs;
          outputs = outputs;
        })) }
    {
        let lists = Lists {
            layers,
            input_width,
            leaves,
            inputs,
            outputs,
        };
        if let Some(bad) = lists.fault() {
            return Err(CircuitRefused::Bad(bad));
        }
        let circuit = Circuit::of_lists(alloc, lists)?;
        Ok(circuit)
    }

    /// The circuit of lists that are known to have no fault, which aren't looked through again. Err only where no memory is
    /// found.
    pub fn of_faultless(
        alloc: Global,
        layers: Vec<Layer>,
        input_width: u32,
        leaves: Vec<Leaf>,
        inputs: u32,
        outputs: u32,
    ) -> Result<Circuit, AllocError>
        requires some { 1 ≤ outputs }
        requires faultless { fault_of greatest (record {
          layers = layers.items;
          input_width = input_width;
          leaves = leaves.items;
          inputs = inputs;
          outputs = outputs;
        }) ≡ None }
        ensures { IfOk result (λ c. c.parts ≡ record {
          layers = layers.items;
          input_width = input_width;
          leaves = leaves.items;
          inputs = inputs;
          outputs = outputs;
        }) }
    {
        let lists = Lists {
            layers,
            input_width,
            leaves,
            inputs,
            outputs,
        };
        Circuit::of_lists(alloc, lists)
    }

    /// The circuit of faultless lists.
    fn of_lists(alloc: Global, lists: Lists) -> Result<Circuit, AllocError>
        requires some { 1 ≤ lists.outputs }
        requires faultless { fault_of greatest lists ≡ None }
        ensures { IfOk result (λ c. c.parts ≡ lists) }
    {
        let shape = lists.shape(alloc)?;
        Ok(Circuit { lists, shape })
    }

    /// The sizes of its layers.
    pub fn shape(&self) -> &Shape
        ensures { result.now.ks ≡ exponents self.now.parts }
    {
        &self.shape
    }

    /// How many layers are above the input layer.
    pub fn height(&self) -> usize
        ensures { result ≡ height self.now.parts }
    {
        self.lists.height()
    }

    /// How many positions a layer has, padding included. Layer 0 is that of the outputs, and layer `height` that of the
    /// inputs.
    pub fn width(&self, layer: usize) -> usize
        requires { layer ≤ height self.now.parts }
        ensures { result ≡ width_of self.now.parts layer }
    {
        self.lists.width(layer)
    }

    /// How many coordinates the positions of a layer have, at most 20: the layer has two to this power of them.
    pub fn coordinates(&self, layer: usize) -> usize
        requires { layer ≤ height self.now.parts }
        ensures value { result ≡ exponent_at self.now.parts layer }
        ensures most { result ≤ 20 }
    {
        self.shape().k(layer) as usize
    }

    /// The gate at a position of a layer.
    pub fn gate_at(&self, layer: usize, gate: usize) -> CircuitGate
        requires layer_in { layer < height self.now.parts }
        requires gate_in { gate < width_of self.now.parts layer }
        ensures value { result ≡ gate_of self.now.parts layer gate }
        ensures left { result.left < width_of self.now.parts (layer + 1) }
        ensures right { result.right < width_of self.now.parts (layer + 1) }
    {
        self.lists.gate(layer, gate)
    }

    /// The gates of a layer.
    pub fn gates(&self, layer: usize) -> &[CircuitGate]
        requires { layer < height self.now.parts }
        ensures value { result.now ≡ slice_index_or self.now.parts.layers layer [] }
        ensures operands { All (IsOver (width_of self.now.parts (layer + 1))) result.now }
    {
        self.lists.gates(layer)
    }

    /// The leaves, which begin at position 1.
    pub fn leaves(&self) -> &[Leaf]
        ensures value { result.now ≡ self.now.parts.leaves }
        ensures inputs { All (IsLeafWithin self.now.parts.inputs) result.now }
        ensures capacity { 1 + length result.now ≤ width_of self.now.parts (height self.now.parts) }
    {
        self.lists.leaves()
    }

    /// What is at a position of the input layer: nothing at 0 and in the padding.
    pub fn leaf_at(&self, position: usize) -> Option<Leaf>
        ensures { result ≡ leaf_at self.now.parts position }
    {
        if position == 0 {
            return None;
        }
        self.lists.leaves.get(position - 1).copied()
    }

    /// How many inputs its leaves may name.
    pub fn inputs(&self) -> u32
        ensures { result ≡ self.now.parts.inputs }
    {
        self.lists.inputs
    }

    /// How many outputs it has, which begin at position 1 of layer 0.
    pub fn outputs(&self) -> u32
        ensures value { result ≡ self.now.parts.outputs }
        ensures some { 1 ≤ result }
    {
        self.lists.outputs
    }
}
