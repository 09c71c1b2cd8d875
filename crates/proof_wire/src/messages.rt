//! The messages of a proof.

use crate::listed::Listed;
use field_ext::Ext;

/// A round's message: the coefficients of a polynomial of degree at most 2, constant first.
#[derive(Clone, Copy, Debug, PartialEq, Eq)]
pub struct Round {
    pub c0: Ext,
    pub c1: Ext,
    pub c2: Ext,
}

impl Round {
    ghost use Rattle.std.specs.Prelude.{◌≡◌};
    ghost use Rattle.proof_wire.specs.Spelling.{coefficients_of};

    /// The message of these coefficients, constant first.
    pub fn of(coefficients: [Ext; 3]) -> Round
        ensures { coefficients_of result ≡ coefficients }
    {
        let [c0, c1, c2] = coefficients;
        Round { c0, c1, c2 }
    }

    /// The coefficients, constant first.
    pub fn coefficients(self) -> [Ext; 3]
        ensures { result ≡ coefficients_of self }
    {
        [self.c0, self.c1, self.c2]
    }
}

/// The messages of a layer: two rounds for each coordinate of the layer below, and the last message. By lines that has
/// one coefficient more than the layer below has coordinates, constant first; by pairs it is two values.
#[derive(Drop)]
pub struct LayerMessages {
    pub rounds: Listed<Round>,
    pub last: Listed<Ext>,
}

/// All messages of a proof, those of the output layer first.
#[derive(Drop)]
pub struct Messages {
    pub layers: Listed<LayerMessages>,
}
