//! Tests of live sessions: what both ends answer and send, for bytes in pieces of any size.
//!
//! They call public functions alone, and compare with values worked by hand: what no contract says.
#![tactic(auto)]

#[cfg(test)]
mod live;
