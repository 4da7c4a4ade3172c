//! Tests of the disks in memory, and over them of reads of a disk, the signature that stands there, and whether it is in use. What a
//! scan finds and what is reported is shown by rows of text that run through `lvm_run`.
//!
//! They stand in a crate of their own, above `dev_shelf`, so that none of those crates has the shelf in memory below it.
#![tactic(auto)]

#[cfg(test)]
mod contents;
#[cfg(test)]
mod disks;
#[cfg(test)]
mod shelves;
#[cfg(test)]
mod signatures;
#[cfg(test)]
mod uses;
