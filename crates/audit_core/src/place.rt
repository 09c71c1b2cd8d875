//! Where a message is.

ghost use Rattle.std.specs.Prelude.{◌≡◌};
ghost use Rattle.gkr_layers.specs.Layers.{layers_of};
ghost use Rattle.audit_core.specs.Audit.{place_in};

use circuit_core::Circuit;

/// Which message of a proof: that of a round of a layer, or the last of a layer, which is in no round. Layers count from 0,
/// that of the outputs, and rounds from 1.
#[derive(Clone, Copy, Debug, PartialEq, Eq)]
pub struct Place {
    pub layer: u32,
    pub round: Option<u32>,
}

/// Where the message of this number is, counted from 0.
pub(crate) fn place_of(circuit: &Circuit, number: usize) -> Place
    ensures { result ≡ place_in (layers_of circuit.now.parts) 0 number }
{
    let mut left = number;
    for layer in 0..circuit.height() {
        let rounds = 2 * circuit.coordinates(layer + 1);
        if left < rounds {
            return Place {
                layer: layer as u32,
                round: Some(left as u32 + 1),
            };
        }
        if left == rounds {
            return Place {
                layer: layer as u32,
                round: None,
            };
        }
        left -= rounds + 1;
    }
    Place {
        layer: circuit.height() as u32,
        round: None,
    }
}
