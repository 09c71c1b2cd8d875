//! A gate that counts who passes.

use io_edge::Gate;
use std::sync::atomic::{AtomicU64, Ordering};

/// Counts the entries, and notes which of them was the first with a piece of number `from` or more, and the greatest number.
#[derive(Drop)]
pub struct CountingGate {
    from: u32,
    entries: AtomicU64,
    first: AtomicU64,
    greatest: AtomicU64,
}

impl CountingGate {
    /// A gate that nobody has passed.
    pub fn new(from: u32) -> CountingGate {
        CountingGate {
            from,
            entries: AtomicU64::new(0),
            first: AtomicU64::new(0),
            greatest: AtomicU64::new(0),
        }
    }

    /// How many entries there were.
    pub fn entries(&self) -> u64 {
        self.entries.load(Ordering::SeqCst)
    }

    /// Which entry, counted from 1, was the first with a piece of number `from` or more; 0 where none was.
    pub fn first(&self) -> u64 {
        self.first.load(Ordering::SeqCst)
    }

    /// The greatest number of a piece.
    pub fn greatest(&self) -> u64 {
        self.greatest.load(Ordering::SeqCst)
    }
}

impl Gate for CountingGate {
    fn enter(&self, _worker: u32, piece: u32) {
        let before = self.entries.fetch_add(1, Ordering::SeqCst);
        if piece >= self.from && self.first.load(Ordering::SeqCst) == 0 {
            self.first.store(before.wrapping_add(1), Ordering::SeqCst);
        }
        if u64::from(piece) > self.greatest.load(Ordering::SeqCst) {
            self.greatest.store(u64::from(piece), Ordering::SeqCst);
        }
    }
}
