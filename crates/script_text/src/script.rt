//! Scripts: cases of clients.

use case_text::Case;

/// A case, and the client that it is of.
#[derive(Debug, Drop)]
pub struct ScriptJob {
    /// The number of the client, from 1 to 64.
    pub client: u32,
    /// The case, of the form Plain.
    pub case: Case,
}

/// A case, the client that it is of, and whether this client withdraws it.
#[derive(Debug, Drop)]
pub struct MarkedJob {
    /// The number of the client, from 1 to 64.
    pub client: u32,
    /// The case, of the form Plain.
    pub case: Case,
    /// Whether the line `withdraw` comes after the case.
    pub withdraw: bool,
}
