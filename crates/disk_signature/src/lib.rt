//! What a disk holds that isn't lvm2's: the signature of a file system, a partition table, swap space, an encrypted
//! volume or a member of a RAID set.
//!
//! It reads and never writes. A disk whose signature isn't in the table counts as blank.
#![tactic(auto)]

mod find;
mod kind;
mod place;
mod table;

pub use find::find_signature;
pub use kind::Kind;
