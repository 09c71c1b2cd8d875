//! Tests of threads: claims of pieces and parts, workers at work beside each other, turns at a lock, the table of jobs and its
//! service.
//!
//! They call public functions alone, and see what no contract says: that calls succeed, and that threads run side by side.
#![tactic(auto)]

#[cfg(test)]
mod claims;
#[cfg(test)]
mod jobs;
#[cfg(test)]
mod parts;
#[cfg(test)]
mod pieces;
#[cfg(test)]
mod service;
#[cfg(test)]
mod turns;
