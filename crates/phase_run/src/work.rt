//! Work that comes in numbered pieces, and work on numbered parts.

ghost use Rattle.std.specs.Prelude.{◌≡◌, ℕ, ◌<◌, IfOk};

use std::alloc::{AllocError, Global};

/// Work that comes in numbered pieces, each of which can be worked by itself, in any thread and any order.
pub trait PieceWork {
    /// What a piece gives.
    type Out;

    /// What piece k gives.
    ghost out_of: { Self → ℕ → Self.Out };

    /// How many pieces there are.
    ghost pieces: { Self → ℕ };

    /// Works piece k. Err only where no memory is found.
    fn work(&self, alloc: Global, k: u32) -> Result<Self::Out, AllocError>
        requires { k < pieces self.now }
        ensures { IfOk result (λ out. out ≡ out_of self.now k) };
}

/// Work on numbered parts, each of which can be changed by itself, in any thread and any order.
pub trait PartWork {
    /// What is changed.
    type Part;

    /// What part k becomes.
    ghost part_of: { Self → ℕ → Self.Part → Self.Part };

    /// Works part k in place. It takes no memory.
    fn work(&self, k: u32, part: &mut Self::Part)
        ensures { part.new ≡ part_of self.now k part.old };
}
