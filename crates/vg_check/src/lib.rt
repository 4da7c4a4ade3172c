//! Whether a volume group keeps the rules of its metadata: a group that breaks one is never used.
//!
//! It takes no memory: what is sorted lies in the room that the group's table of logical volumes keeps.
#![tactic(auto)]

mod apart;
mod block;
mod checked;
mod checking;
mod climb;
mod counts;
mod covers;
mod depth;
mod devices;
mod extents;
mod follows;
mod ids;
mod kind;
mod legs;
mod limits;
mod mirrors;
mod move_segments;
mod moved;
mod moves;
mod moving;
mod numbers;
mod offence;
mod open_group;
mod order;
mod powers;
mod rows;
mod stripes;

pub use checked::Checked;
pub use checking::{CheckRefused, check};
pub use limits::{MOST_LEGS, MOST_LVS, MOST_PVS, MOST_SEGMENTS};
