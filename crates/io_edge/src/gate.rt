//! Gates that workers pass.

/// What a worker passes between its claim of a piece and its work on it. It changes no answer.
pub trait Gate: Sync {
    /// Passes `worker`, counted from 0, which claimed `piece`. Several threads may be in it at once.
    fn enter(&self, worker: u32, piece: u32);
}

/// A gate that holds nobody.
#[derive(Clone, Copy, Debug)]
pub struct OpenGate;

impl Gate for OpenGate {
    /// Passes `worker`, counted from 0, which claimed `piece`. Several threads may be in it at once.
    fn enter(&self, _worker: u32, _piece: u32) {}
}
