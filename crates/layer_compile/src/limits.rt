//! How large a circuit may be.

ghost use Rattle.std.specs.Prelude.{◌≡◌, ◌≤◌};
ghost use Rattle.circuit_core.specs.Sound.{greatest};

use circuit_core::{GREATEST_EXPONENT, GREATEST_HEIGHT};
use std::marker::Model;

/// The most layers above the input, and the greatest k of a layer with `2^k` positions.
#[derive(Clone, Copy, Debug, PartialEq, Eq)]
pub struct Limits {
    height: usize,
    exponent: u32,
}

impl Model for Limits {
    ghost use Rattle.circuit_core.specs.Parts as parts;
    ghost use Rattle.layer_compile.specs.Circuits.{AreKept};

    ghost Value = { parts.Limits };

    ghost view = { λ l. record { height = l.height; exponent = l.exponent } };

    ghost inverse = { λ l. record { height = l.height; exponent = l.exponent } };

    ghost invariant = { λ l. AreKept (record { height = l.height; exponent = l.exponent }) };
}

impl Limits {
    ghost use Rattle.layer_compile.specs.Circuits.{AreKept};

    /// Limits of this height and exponent, which are at most those of every circuit.
    pub fn of(height: usize, exponent: u32) -> Limits
        requires height { height ≤ greatest.height }
        requires exponent { exponent ≤ greatest.exponent }
        ensures { result ≡ record { height = height; exponent = exponent } }
    {
        Limits { height, exponent }
    }

    /// The limits of every circuit.
    pub fn greatest() -> Limits
        ensures { result ≡ greatest }
    {
        Limits::of(GREATEST_HEIGHT, GREATEST_EXPONENT)
    }

    /// The most layers above the input.
    pub fn height(&self) -> usize
        ensures value { result ≡ self.now.height }
        ensures kept { AreKept self.now }
    {
        self.height
    }

    /// The greatest exponent of a layer's size.
    pub fn exponent(&self) -> u32
        ensures value { result ≡ self.now.exponent }
        ensures kept { AreKept self.now }
    {
        self.exponent
    }
}
