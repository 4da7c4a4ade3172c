//! Lines that read, write or flush a volume.
//!
//! `specs/DataLines` says which volume and which sectors such a line names, and what it brings to each sector that it writes;
//! `contents_for` makes that.
#![tactic(auto)]

mod contents;
#[cfg(test)]
mod tests;

pub use contents::contents_for;
