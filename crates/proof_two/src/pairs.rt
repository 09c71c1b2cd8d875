//! The messages of a proof of version 2.

use field_ext::Ext;
use proof_wire::Listed;

/// A round's message without its middle coefficient: the coefficients of 1 and of X squared.
#[derive(Clone, Copy, Debug, PartialEq, Eq)]
pub struct RoundPair {
    pub c0: Ext,
    pub c2: Ext,
}

impl RoundPair {
    ghost use Rattle.std.specs.Prelude.{◌≡◌};
    ghost use Rattle.proof_two.specs.Spelling.{pair_of};

    /// The message of these two coefficients, constant first.
    pub fn of(coefficients: [Ext; 2]) -> RoundPair
        ensures { pair_of result ≡ coefficients }
    {
        let [c0, c2] = coefficients;
        RoundPair { c0, c2 }
    }

    /// The two coefficients, constant first.
    pub fn coefficients(self) -> [Ext; 2]
        ensures { result ≡ pair_of self }
    {
        [self.c0, self.c2]
    }
}

/// The messages of a layer: two rounds for each coordinate of the layer below, each without its middle coefficient, and the
/// line's message, of one coefficient more than the layer below has coordinates, constant first.
#[derive(Drop)]
pub struct LayerPairs {
    pub rounds: Listed<RoundPair>,
    pub last: Listed<Ext>,
}

/// All messages of a proof of version 2, those of the output layer first.
#[derive(Drop)]
pub struct Pairs {
    pub layers: Listed<LayerPairs>,
}
