//! Tests of what the crates that find, plan and commit groups offer.
//!
//! A crate with tests is proved twice, with them and without. So the tests of what several crates offer stand in one above them.
#![tactic(auto)]

#[cfg(test)]
mod allocations;
#[cfg(test)]
mod batches;
#[cfg(test)]
mod commits;
#[cfg(test)]
mod decisions;
#[cfg(test)]
mod edits;
#[cfg(test)]
mod finds;
#[cfg(test)]
mod groups;
#[cfg(test)]
mod id_maps;
#[cfg(test)]
mod operations;
#[cfg(test)]
mod places;
#[cfg(test)]
mod releases;
