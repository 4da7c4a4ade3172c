//! Tests of what the crates below all others offer: sectors, ids, names, labels, headers, and queues of operations.
//!
//! A crate with tests is proved twice, with them and without. So the tests of what several crates offer stand in one above them.
#![tactic(auto)]

#[cfg(test)]
mod areas;
#[cfg(test)]
mod headers;
#[cfg(test)]
mod ids;
#[cfg(test)]
mod labels;
#[cfg(test)]
mod names;
#[cfg(test)]
mod queues;
#[cfg(test)]
mod sectors;
