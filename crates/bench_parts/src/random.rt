//! Numbers, elements and gates to measure with.

use circuit_core::{CircuitGate, Kind};
use field_ext::{Ext, Fp};
use std::alloc::{AllocError, Global};

/// Numbers that follow no plain rule.
#[derive(Clone, Copy)]
pub struct Random {
    seed: u64,
}

impl Random {
    /// Those that this seed begins, which isn't 0.
    pub fn of(seed: u64) -> Random {
        Random { seed }
    }

    /// The next number, by xorshift of 64 bits.
    pub fn next(&mut self) -> u64 {
        self.seed ^= self.seed << 13;
        self.seed ^= self.seed >> 7;
        self.seed ^= self.seed << 17;
        self.seed
    }

    /// The next element of K.
    pub fn element(&mut self) -> Ext {
        let re = Fp::reduce(self.next());
        Ext::of(re, Fp::reduce(self.next()))
    }

    /// So many elements of K.
    pub fn elements(&mut self, alloc: Global, count: u32) -> Result<Vec<Ext>, AllocError> {
        let mut found = vec![in alloc; Ext::zero(); count as usize]?;
        for place in 0..found.len() {
            found[place] = self.element();
        }
        Ok(found)
    }

    /// A gate over `2^k` positions.
    fn gate(&mut self, k: u32) -> CircuitGate {
        let kind = if self.next() % 2 == 1 {
            Kind::Mul
        } else {
            Kind::Add
        };
        let mask = (1u64 << k.min(20)) - 1;
        CircuitGate {
            kind,
            left: (self.next() & mask) as u32,
            right: (self.next() & mask) as u32,
        }
    }

    /// `2^k` gates over as many positions, of which the first adds.
    pub fn gates(&mut self, alloc: Global, k: u32) -> Result<Vec<CircuitGate>, AllocError> {
        let zero = CircuitGate {
            kind: Kind::Add,
            left: 0,
            right: 0,
        };
        let mut gates = vec![in alloc; zero; 1usize << k.min(20)]?;
        for place in 1..gates.len() {
            gates[place] = self.gate(k);
        }
        Ok(gates)
    }
}

/// So many numbers, each another.
pub fn numbers(alloc: Global, count: u64) -> Result<Vec<Fp>, AllocError> {
    let mut found = vec![in alloc; Fp::zero(); count as usize]?;
    for place in 0..found.len() {
        found[place] = Fp::reduce((place as u64).wrapping_mul(2_654_435_761));
    }
    Ok(found)
}
