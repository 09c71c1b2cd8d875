//! The sizes of a circuit.

use std::marker::Model;

/// A layer: how many positions it has, and how many of its gates multiply.
#[derive(Clone, Copy, Debug, PartialEq, Eq)]
pub struct LayerSize {
    pub positions: u64,
    pub products: u64,
}

/// The sizes of a circuit's layers, the output layer first and the input layer last, and of its proofs.
#[derive(Debug, Drop)]
pub struct CircuitSizes {
    layers: Vec<LayerSize>,
    proof: u64,
    challenges: u64,
    bound: u64,
}

impl Model for CircuitSizes {
    ghost use Rattle.case_text.specs.Sizes.{Sizes};

    ghost Value = { Sizes };

    ghost view = { λ s. record {
      layers = s.layers.items;
      proof = s.proof;
      challenges = s.challenges;
      bound = s.bound;
    } };
}

impl CircuitSizes {
    ghost use Rattle.std.specs.Prelude.{◌≡◌};

    /// Layers, the bytes of a proof, how many challenges it takes, and the sum of the bounds on the exceptional ones.
    pub fn new(layers: Vec<LayerSize>, proof: u64, challenges: u64, bound: u64) -> CircuitSizes
        ensures { result ≡ record {
          layers = layers.items;
          proof = proof;
          challenges = challenges;
          bound = bound;
        } }
    {
        CircuitSizes {
            layers,
            proof,
            challenges,
            bound,
        }
    }

    /// The layers, the output layer first.
    pub fn layers(&self) -> &[LayerSize]
        ensures { result.now ≡ self.now.layers }
    {
        &self.layers
    }

    /// How many bytes a proof has.
    pub fn proof(&self) -> u64
        ensures { result ≡ self.now.proof }
    {
        self.proof
    }

    /// How many challenges a proof takes.
    pub fn challenges(&self) -> u64
        ensures { result ≡ self.now.challenges }
    {
        self.challenges
    }

    /// The sum of the bounds on the exceptional challenges.
    pub fn bound(&self) -> u64
        ensures { result ≡ self.now.bound }
    {
        self.bound
    }
}
