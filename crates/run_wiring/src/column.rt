//! One binary digit of a run's numbers.

ghost use Rattle.std.specs.Prelude.{◌≡◌, ◌≤◌, ◌<◌, length};
ghost use Rattle.field_ext.specs.Field.{k_ops};
ghost use Rattle.run_wiring.specs.Entries.{AreSmall, HasDigits, carried, factor};
ghost use Rattle.run_wiring.specs.Weights.{AreWeights, weight_place, weight_at};

use crate::carries::Carries;
use field_ext::Ext;

/// The digits of a run's first position and operands and of its greatest place, its steps, and the coordinates of the
/// points that belong to these digits.
#[derive(Clone, Copy)]
pub(crate) struct Column {
    pub(crate) position: u32,
    pub(crate) left: u32,
    pub(crate) lstep: u32,
    pub(crate) right: u32,
    pub(crate) rstep: u32,
    pub(crate) last: u32,
    pub(crate) z: Ext,
    pub(crate) b: Ext,
    pub(crate) c: Ext,
}

impl Column {
    /// The carries into the next column, where the place has this digit.
    pub(crate) fn carried(&self, from: Carries, digit: u32) -> Carries
        requires digits { HasDigits self.now }
        requires carries { AreSmall from }
        requires digit { digit ≤ 1 }
        ensures value { result ≡ carried self.now from digit }
        ensures small { AreSmall result }
    {
        Carries {
            position: (self.position + from.position + digit) / 2,
            left: (self.left + from.left + digit * self.lstep) / 2,
            right: (self.right + from.right + digit * self.rstep) / 2,
            within: (self.last + from.within + (1 - digit)) / 2,
        }
    }

    /// Which of the column's eight weights belongs to these carries and this digit: only whether the three sums are odd
    /// counts.
    pub(crate) fn weight_place(&self, from: Carries, digit: u32) -> usize
        requires digits { HasDigits self.now }
        requires carries { AreSmall from }
        requires digit { digit ≤ 1 }
        ensures value { result ≡ weight_place self.now from digit }
        ensures few { result < 8 }
    {
        let position = (self.position + from.position + digit) % 2;
        let left = (self.left + from.left + digit * self.lstep) % 2;
        let right = (self.right + from.right + digit * self.rstep) % 2;
        (position * 4 + left * 2 + right) as usize
    }

    /// Fills in the column's eight weights.
    pub(crate) fn fill_weights(&self, weights: &mut [Ext])
        requires { length weights.old ≡ 8 }
        ensures { AreWeights self.now weights.new }
    {
        for place in 0..8 {
            weights[place] = self.weight_at(place as u32);
        }
    }

    /// The weight at a place, whose binary digits say which of the three sums are odd.
    fn weight_at(&self, place: u32) -> Ext
        requires { place < 8 }
        ensures { result ≡ weight_at self.now place }
    {
        let operands = factor(self.b, place / 2) * factor(self.c, place);
        factor(self.z, place / 4) * operands
    }
}

/// What the lowest digit of an index contributes to the equality polynomial at a coordinate.
fn factor(coordinate: Ext, index: u32) -> Ext
    ensures { result ≡ factor k_ops coordinate index }
{
    if index % 2 == 1 {
        coordinate
    } else {
        Ext::one() - coordinate
    }
}
