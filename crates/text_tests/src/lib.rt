//! Tests of what the crates of metadata texts offer: trees, groups as they are read, printed and checked.
//!
//! A crate with tests is proved twice, with them and without. So the tests of what several crates offer stand in one above them.
#![tactic(auto)]

#[cfg(test)]
mod checks;
#[cfg(test)]
mod groups;
#[cfg(test)]
mod models;
#[cfg(test)]
mod printings;
#[cfg(test)]
mod readings;
#[cfg(test)]
mod rules;
#[cfg(test)]
mod trees;
