//! A gate that sees whether two are there at one time.

use io_edge::Gate;
use std::hint::spin_loop;
use std::sync::atomic::{AtomicU64, Ordering};

/// Holds the first entry with a piece of number `from` or more until a second such entry, for at most 10,000,000 turns, and
/// then raises its mark.
#[derive(Drop)]
pub struct MeetingGate {
    from: u32,
    entries: AtomicU64,
    raised: AtomicU64,
}

impl MeetingGate {
    /// A gate that nobody has passed, with its mark down.
    pub fn new(from: u32) -> MeetingGate {
        MeetingGate {
            from,
            entries: AtomicU64::new(0),
            raised: AtomicU64::new(0),
        }
    }

    /// How many entries with a piece of number `from` or more there were.
    pub fn entries(&self) -> u64 {
        self.entries.load(Ordering::SeqCst)
    }

    /// Whether the mark is raised: the first entry saw no second.
    pub fn is_raised(&self) -> bool {
        self.raised.load(Ordering::SeqCst) > 0
    }
}

impl Gate for MeetingGate {
    fn enter(&self, _worker: u32, piece: u32) {
        if piece < self.from || self.entries.fetch_add(1, Ordering::SeqCst) > 0 {
            return;
        }
        for _ in 0..10_000_000 {
            if self.entries.load(Ordering::SeqCst) > 1 {
                return;
            }
            spin_loop();
        }
        self.raised.store(1, Ordering::SeqCst);
    }
}
