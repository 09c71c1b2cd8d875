//! The two sums that make the wiring polynomials.

ghost use Rattle.std.specs.Prelude.{◌≡◌};
ghost use Rattle.field_ext.specs.Field.{add_k, zero_k};
ghost use Rattle.wiring_poly.specs.Wiring.{by_kind};

use circuit_core::Kind;
use field_ext::Ext;

/// The values of the two wiring polynomials, or what of them is summed so far: that of the add gates and that of the
/// multiply gates.
#[derive(Clone, Copy)]
pub struct WiringSums {
    pub add: Ext,
    pub mul: Ext,
}

impl WiringSums {
    /// With one more weight, of a gate of this kind or of several.
    pub fn with(self, kind: Kind, weight: Ext) -> WiringSums
        ensures add { result.add ≡ add_k self.add (by_kind kind weight zero_k) }
        ensures mul { result.mul ≡ add_k self.mul (by_kind kind zero_k weight) }
    {
        match kind {
            Kind::Add => WiringSums {
                add: self.add + weight,
                mul: self.mul + Ext::zero(),
            },
            Kind::Mul => WiringSums {
                add: self.add + Ext::zero(),
                mul: self.mul + weight,
            },
        }
    }
}
