//! The bytes of proofs by their coefficients.

use proof_wire::ProofForm;
use std::alloc::{AllocError, Global};
use test_circuits::number;

/// The bytes of a proof of this form with these coefficients.
pub(crate) fn bytes_of(
    alloc: Global,
    form: ProofForm,
    coefficients: &[i32],
) -> Result<Vec<u8>, AllocError> {
    let magic = match form {
        ProofForm::Line => b"GKR1",
        ProofForm::Pair => b"GKRP",
    };
    bytes_after(alloc, magic, coefficients)
}

/// The bytes of a proof of version 2 with these coefficients.
pub(crate) fn short_bytes(alloc: Global, coefficients: &[i32]) -> Result<Vec<u8>, AllocError> {
    bytes_after(alloc, b"GKR2", coefficients)
}

/// These coefficients after the bytes that tell the kind of proof.
fn bytes_after(
    alloc: Global,
    magic: &[u8; 4],
    coefficients: &[i32],
) -> Result<Vec<u8>, AllocError> {
    let mut bytes = Vec::from_slice(alloc, magic)?;
    for n in coefficients {
        bytes.extend_from_slice(&number(*n).to_bytes())?;
    }
    Ok(bytes)
}
