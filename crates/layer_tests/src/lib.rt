//! Tests of one layer: the values of its table, lines, runs of its gates, the messages of its rounds, and claims bound by
//! them.
//!
//! They call public functions alone, and compare with values worked by hand: what no contract says.
#![tactic(auto)]

#[cfg(test)]
mod lines;
#[cfg(test)]
mod messages;
#[cfg(test)]
mod pieces;
#[cfg(test)]
mod rounds;
#[cfg(test)]
mod runs;
#[cfg(test)]
mod tables;
