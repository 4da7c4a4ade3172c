//! The names of volume groups, of physical volumes in their text, and of logical volumes, by lvm2's rule of names.
#![tactic(auto)]

mod name;
mod refusal;
mod rule;

pub use name::{GroupName, VolumeName};
pub use refusal::NameRefusal;
