//! Outputs of a program.

use field_ext::Fp;
use std::marker::Model;

/// The outputs of a program, which contracts see as their list.
#[derive(Debug, Drop)]
pub struct Outputs {
    items: Vec<Fp>,
}

impl Model for Outputs {
    ghost use Rattle.std.specs.Prelude.{List};
    ghost use Rattle.field_ext.specs.Field.{F};

    ghost Value = { List F };

    ghost view = { λ v. v.items.items };
}

impl Outputs {
    ghost use Rattle.std.specs.Prelude.{◌≡◌};

    /// These outputs, without a copy.
    pub fn new(items: Vec<Fp>) -> Outputs
        ensures { result ≡ items.items }
    {
        Outputs { items }
    }

    /// The outputs in order.
    pub fn as_slice(&self) -> &[Fp]
        ensures { result.now ≡ self.now }
    {
        &self.items
    }
}
