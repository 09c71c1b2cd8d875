//! What the calling thread passes before it works a piece.

use io_edge::Gate;

/// What the calling thread passes before its work on a piece. It changes no answer. Unlike a gate it isn't shared by threads, so that it
/// can be a part of what a method works with.
pub trait Entry {
    /// Passes with a piece.
    fn pass(&self, piece: usize);
}

/// The entry of a thread that works alone at a gate, which it enters as worker 0.
#[derive(Drop)]
pub struct AtGate<'g, G> {
    gate: &'g G,
}

impl<'g, G: Gate> AtGate<'g, G> {
    /// At this gate.
    pub fn new(gate: &'g G) -> AtGate<'g, G> {
        AtGate { gate }
    }
}

impl<'g, G: Gate> Entry for AtGate<'g, G> {
    fn pass(&self, piece: usize) {
        self.gate.enter(0, u32::try_from(piece).unwrap_or(u32::MAX));
    }
}
