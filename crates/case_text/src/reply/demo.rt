//! What a run of the demo reports.

use field_ext::Fp;

/// A case that was generated from a number, proved, and accepted.
#[derive(Clone, Copy, Debug)]
pub struct DemoSummary {
    /// The number that the case was generated from.
    pub number: u32,
    /// How many rows, and columns, each of its two matrices has.
    pub size: u32,
    /// Its one output.
    pub output: Fp,
    /// How many layers its circuit has above the input.
    pub layers: usize,
    /// How many bytes its proof has.
    pub proof: usize,
    /// The SHA-256 digest of the proof's bytes.
    pub digest: [u8; 32],
}
