//! Tests of what sessions are to stand on: pieces of requests, their claims, regions and legs of mirrors, flushes, and counted
//! comparisons.
//!
//! A crate with tests is proved twice, with them and without. So the tests of what several crates offer stand in one above them.
#![tactic(auto)]

#[cfg(test)]
mod claims;
#[cfg(test)]
mod comparisons;
#[cfg(test)]
mod flushes;
#[cfg(test)]
mod legs;
#[cfg(test)]
mod pieces;
#[cfg(test)]
mod regions;
