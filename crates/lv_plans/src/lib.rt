//! What commands on logical volumes change: lvcreate, lvextend, lvreduce, lvremove and lvrename, each with its refusals in their
//! order and its change in a file of its own.
//!
//! Where a line takes extents, rows and change are functions of those that it was given (`specs/Allocating`).
#![tactic(auto)]

mod allocating;
mod lvcreate;
mod lvextend;
mod lvreduce;
mod lvremove;
mod lvrename;
mod sizes;
mod volumes;

pub use lvcreate::plan_lvcreate;
pub use lvextend::plan_lvextend;
pub use lvreduce::plan_lvreduce;
pub use lvremove::plan_lvremove;
pub use lvrename::plan_lvrename;
