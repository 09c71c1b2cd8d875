//! Tests of the protocol: verdicts on messages by lines and by pairs, and proofs of small circuits.
//!
//! They call public functions alone, and compare with values worked by hand: what no contract says.
#![tactic(auto)]

#[cfg(test)]
mod answered;
#[cfg(test)]
mod audits;
#[cfg(test)]
mod pairs;
#[cfg(test)]
mod proofs;
#[cfg(test)]
mod shortened;
#[cfg(test)]
mod spelled;
#[cfg(test)]
mod verdicts;
#[cfg(test)]
mod walks;
