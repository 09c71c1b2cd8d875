//! Tests of worked texts: cases, audits, scripts and sessions. What the program says of texts is in the tables of `tests/`.
//!
//! They call public functions alone, and compare with texts written by hand: what no contract says.
#![tactic(auto)]

#[cfg(test)]
mod cases;
#[cfg(test)]
mod scripts;
#[cfg(test)]
mod sessions;
