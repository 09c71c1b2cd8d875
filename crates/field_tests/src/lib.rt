//! Tests of the field, of polynomials and tables over it, of challenges, of proof bytes, and of sources and sinks.
//!
//! They call public functions alone, and compare with values worked by hand or by SHA-256: what no contract says.
#![tactic(auto)]

#[cfg(test)]
mod challenges;
#[cfg(test)]
mod edges;
#[cfg(test)]
mod elements;
#[cfg(test)]
mod numbers;
#[cfg(test)]
mod polynomials;
#[cfg(test)]
mod proof_bytes;
#[cfg(test)]
mod short_proofs;
#[cfg(test)]
mod tables;
