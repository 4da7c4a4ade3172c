//! Ids are found without looking along them: numbers by ids, and the physical volumes of a group by theirs.
#![tactic(auto)]

mod map;
mod members;
mod volumes;

pub use map::IdMap;
pub use members::Members;
pub use volumes::{lvs_by_id, pvs_by_id};
