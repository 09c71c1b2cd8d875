//! The lists that a circuit is made of, and their faults.

ghost use Rattle.std.specs.Prelude.{◌≡◌, ◌≤◌, ◌<◌, ◌+◌, ◌^◌, length, None, IfOk, slice_index_or, []};
ghost use Rattle.circuit_core.specs.Parts.{height, width_of, gate_of, zero_gate};
ghost use Rattle.circuit_core.specs.Faults.{fault_of, depth_fault, width_fault, zero_fault, operand_fault, leaf_fault, first_below, first_at_gate, held_by, exponent_of, is_padding, is_zero_gate};
ghost use Rattle.circuit_core.specs.Sound.{exponents, greatest};

use crate::fault::BadCircuit;
use crate::gate::{CircuitGate, Kind, Layer, Leaf};
use crate::shape::Shape;
use crate::{GREATEST_EXPONENT, GREATEST_HEIGHT};
use std::alloc::{AllocError, Global};
use std::marker::Model;

#[derive(Drop)]
pub struct Lists {
    pub layers: Vec<Layer>,
    pub input_width: u32,
    pub leaves: Vec<Leaf>,
    pub inputs: u32,
    pub outputs: u32,
}

impl Model for Lists {
    ghost use Rattle.circuit_core.specs.Parts.{Parts};

    ghost Value = { Parts };

    ghost view = { λ l. record {
      layers = l.layers.items;
      input_width = l.input_width;
      leaves = l.leaves.items;
      inputs = l.inputs;
      outputs = l.outputs;
    } };
}

impl Lists {
    pub fn height(&self) -> usize
        ensures value { result ≡ height self.now }
        ensures small { result < 2 ^ 63 }
    {
        self.layers.len()
    }

    pub fn width(&self, layer: usize) -> usize
        requires { layer ≤ height self.now }
        ensures { result ≡ width_of self.now layer }
    {
        if layer < self.layers.len() {
            self.layers[layer].width()
        } else {
            self.input_width as usize
        }
    }

    pub fn gate(&self, layer: usize, gate: usize) -> CircuitGate
        requires layer_in { layer < height self.now }
        requires gate_in { gate < width_of self.now layer }
        ensures { result ≡ gate_of self.now layer gate }
    {
        self.layers[layer].gates()[gate]
    }

    pub fn gates(&self, layer: usize) -> &[CircuitGate]
        requires { layer < height self.now }
        ensures { result.now ≡ slice_index_or self.now.layers layer [] }
    {
        self.layers[layer].gates()
    }

    pub fn leaves(&self) -> &[Leaf]
        ensures { result.now ≡ self.now.leaves }
    {
        self.leaves.as_slice()
    }

    fn depth_fault(&self) -> Option<BadCircuit>
        ensures { result ≡ depth_fault greatest self.now }
    {
        let layers = self.height();
        if (1..=GREATEST_HEIGHT).contains(&layers) {
            None
        } else {
            Some(BadCircuit::Depth { layers })
        }
    }

    fn width_fault(&self, layer: usize) -> Option<BadCircuit>
        requires { layer ≤ height self.now }
        ensures { result ≡ width_fault greatest self.now layer }
    {
        let width = self.width(layer);
        if exponent_of(width).is_some() && self.held_by(layer) <= width {
            None
        } else {
            Some(BadCircuit::Width { layer, width })
        }
    }

    fn held_by(&self, layer: usize) -> usize
        ensures { result ≡ held_by self.now layer }
    {
        if layer == 0 {
            1 + self.outputs as usize
        } else if layer == self.height() {
            1 + self.leaves.len()
        } else {
            1
        }
    }

    fn zero_fault(&self, layer: usize, gate: usize) -> Option<BadCircuit>
        requires layer_in { layer < height self.now }
        requires gate_in { gate < width_of self.now layer }
        ensures { result ≡ zero_fault self.now layer gate }
    {
        if self.is_padding(layer, gate) && !is_zero_gate(&self.gate(layer, gate)) {
            Some(BadCircuit::Zero { layer, gate })
        } else {
            None
        }
    }

    fn is_padding(&self, layer: usize, gate: usize) -> bool
        ensures { result ≡ is_padding self.now layer gate }
    {
        gate == 0 || layer == 0 && gate > self.outputs as usize
    }

    fn operand_fault(&self, layer: usize, gate: usize) -> Option<BadCircuit>
        requires layer_in { layer < height self.now }
        requires gate_in { gate < width_of self.now layer }
        ensures { result ≡ operand_fault self.now layer gate }
    {
        let operands = &self.layers[layer].gates()[gate];
        let width = self.width(layer + 1);
        if operands.left as usize >= width {
            Some(BadCircuit::Operand {
                layer,
                gate,
                operand: operands.left,
                width,
            })
        } else if operands.right as usize >= width {
            Some(BadCircuit::Operand {
                layer,
                gate,
                operand: operands.right,
                width,
            })
        } else {
            None
        }
    }

    fn leaf_fault(&self, k: usize) -> Option<BadCircuit>
        requires { k < length self.now.leaves }
        ensures { result ≡ leaf_fault self.now k }
    {
        match self.leaves[k] {
            Leaf::Input(j) if j >= self.inputs => Some(BadCircuit::Leaf { position: k + 1 }),
            _ => None,
        }
    }
}

impl Lists {
    pub fn fault(&self) -> Option<BadCircuit>
        ensures { result ≡ fault_of greatest self.now }
    {
        if let Some(bad) = self.depth_fault() {
            return Some(bad);
        }
        if let Some(bad) = self.first_width_fault() {
            return Some(bad);
        }
        if let Some(bad) = self.first_zero_fault() {
            return Some(bad);
        }
        if let Some(bad) = self.first_operand_fault() {
            return Some(bad);
        }
        self.first_leaf_fault()
    }

    #[tactic(auto, using(crate::proofs::api::First::firsts))]
    fn first_width_fault(&self) -> Option<BadCircuit>
        ensures { result ≡ first_below (height self.now + 1) (width_fault greatest self.now) }
    {
        for layer in 0..self.height() + 1 {
            if let Some(bad) = self.width_fault(layer) {
                return Some(bad);
            }
        }
        None
    }

    #[tactic(auto, using(crate::proofs::api::First::firsts))]
    fn first_zero_fault(&self) -> Option<BadCircuit>
        ensures { result ≡ first_at_gate self.now (zero_fault self.now) }
    {
        for layer in 0..self.height() {
            if let Some(bad) = self.layer_zero_fault(layer) {
                return Some(bad);
            }
        }
        None
    }

    #[tactic(auto, using(crate::proofs::api::First::firsts))]
    fn layer_zero_fault(&self, layer: usize) -> Option<BadCircuit>
        requires { layer < height self.now }
        ensures { result ≡ first_below (width_of self.now layer) (zero_fault self.now layer) }
    {
        for gate in 0..self.width(layer) {
            if let Some(bad) = self.zero_fault(layer, gate) {
                return Some(bad);
            }
        }
        None
    }

    #[tactic(auto, using(crate::proofs::api::First::firsts))]
    fn first_operand_fault(&self) -> Option<BadCircuit>
        ensures { result ≡ first_at_gate self.now (operand_fault self.now) }
    {
        for layer in 0..self.height() {
            if let Some(bad) = self.layer_operand_fault(layer) {
                return Some(bad);
            }
        }
        None
    }

    #[tactic(auto, using(crate::proofs::api::First::firsts))]
    fn layer_operand_fault(&self, layer: usize) -> Option<BadCircuit>
        requires { layer < height self.now }
        ensures { result ≡ first_below (width_of self.now layer) (operand_fault self.now layer) }
    {
        for gate in 0..self.width(layer) {
            if let Some(bad) = self.operand_fault(layer, gate) {
                return Some(bad);
            }
        }
        None
    }

    #[tactic(auto, using(crate::proofs::api::First::firsts))]
    fn first_leaf_fault(&self) -> Option<BadCircuit>
        ensures { result ≡ first_below (length self.now.leaves) (leaf_fault self.now) }
    {
        for k in 0..self.leaves.len() {
            if let Some(bad) = self.leaf_fault(k) {
                return Some(bad);
            }
        }
        None
    }
}

impl Lists {
    /// The shape of faultless lists.
    pub fn shape(&self, alloc: Global) -> Result<Shape, AllocError>
        requires { fault_of greatest self.now ≡ None }
        ensures { IfOk result (λ s. s.ks ≡ exponents self.now) }
    {
        let mut ks = Vec::new(alloc);
        for layer in 0..self.height() + 1 {
            ks.push(exponent_of(self.width(layer)).unwrap_or(0))?;
        }
        Ok(Shape::of(ks))
    }
}

/// The k with `width = 2^k`, where a layer may have this width.
#[tactic(auto, using(crate::proofs::api::First::firsts))]
pub fn exponent_of(width: usize) -> Option<u32>
    ensures { result ≡ exponent_of greatest width }
{
    for j in 0..GREATEST_EXPONENT {
        if width == 1 << (j + 1) {
            return Some(j + 1);
        }
    }
    None
}

fn is_zero_gate(gate: &CircuitGate) -> bool
    ensures { result ≡ is_zero_gate gate.now }
{
    gate.kind == Kind::Add && gate.left == 0 && gate.right == 0
}
