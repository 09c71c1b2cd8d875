//! Tests of circuits and of the array language: tokens, trees, counts, lists, nodes, layouts, outputs, values
//! and wiring.
//!
//! They call public functions alone, and compare with values worked by hand: what no contract says.
#![tactic(auto)]

#[cfg(test)]
mod circuits;
#[cfg(test)]
mod evaluation;
#[cfg(test)]
mod gates;
#[cfg(test)]
mod languages;
#[cfg(test)]
mod layouts;
#[cfg(test)]
mod lists;
#[cfg(test)]
mod nodes;
#[cfg(test)]
mod programs;
#[cfg(test)]
mod texts;
#[cfg(test)]
mod wirings;
#[cfg(test)]
mod words;
