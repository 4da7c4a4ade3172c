//! The group that the tree of a metadata text stands for, or the first key that is refused.
#![tactic(auto)]

mod group;
mod ids;
mod keys;
mod legs;
mod lv;
mod pairs;
mod passed;
mod places;
mod pv;
mod read;
mod refusals;
mod rows;
mod sections;
mod segment;
mod top;
mod words;

pub use passed::Unknown;
pub use read::group_of;
