//! The sizes of a circuit's layers.

ghost use Rattle.std.specs.Prelude.{◌≡◌, ◌<◌, ◌≤◌, ◌+◌, ◌&&◌, IsTrue, nat_le, length, slice_index, vec_len};
ghost use Rattle.std.specs.List.{list_all};
ghost use Rattle.circuit_core.specs.Sound.{greatest};

use std::marker::Model;

/// For each layer, the output layer first, the k with `2^k` positions.
#[derive(Drop)]
pub struct Shape {
    ks: Vec<u32>,
    ghost long: { 2 ≤ vec_len ks },
    ghost short: { vec_len ks ≤ greatest.height + 1 },
    ghost bounded: { IsTrue (list_all (λ k. nat_le 1 k && nat_le k greatest.exponent) ks.items) },
}

impl Model for Shape {
    ghost use Rattle.std.specs.Prelude.{◌≤◌, ◌+◌};
    ghost use Rattle.std.proofs.Common.{subst};
    ghost use Rattle.circuit_core.specs.Sound.{Exponents, greatest};

    ghost Value = { Exponents };

    ghost view = { λ s. record {
      ks = s.ks.items;
      long = subst (λ n. 2 ≤ n) s.ks.ok.0 s.long;
      short = subst (λ n. n ≤ greatest.height + 1) s.ks.ok.0 s.short;
      bounded = s.bounded;
    } };
}

impl Shape {
    /// The shape of these exponents: from two layers up, each of at least 2 positions, within the limits of every circuit.
    pub fn of(ks: Vec<u32>) -> Shape
        requires long { 2 ≤ vec_len ks }
        requires short { vec_len ks ≤ greatest.height + 1 }
        requires bounded { IsTrue
            (list_all (λ k. nat_le 1 k && nat_le k greatest.exponent) ks.items) }
        ensures { result.ks ≡ ks.items }
    {
        Shape { ks }
    }

    /// How many layers there are, that of the inputs among them.
    pub fn layers(&self) -> usize
        ensures { result ≡ length self.now.ks }
    {
        self.ks.len()
    }

    /// The k of a layer of `2^k` positions.
    pub fn k(&self, layer: usize) -> u32
        requires { layer < length self.now.ks }
        ensures { result ≡ slice_index self.now.ks layer }
    {
        self.ks[layer]
    }
}
