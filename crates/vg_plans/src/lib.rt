//! What commands on groups change: vgcreate, vgextend, vgreduce, vgremove, vgrename and vgcfgrestore, each with its refusals in
//! their order and its change in a file of its own.
#![tactic(auto)]

mod limits;
mod same_group;
mod shape;
mod vgcfgrestore;
mod vgcreate;
mod vgextend;
mod vgreduce;
mod vgremove;
mod vgrename;

pub use vgcfgrestore::plan_vgcfgrestore;
pub use vgcreate::plan_vgcreate;
pub use vgextend::plan_vgextend;
pub use vgreduce::plan_vgreduce;
pub use vgremove::plan_vgremove;
pub use vgrename::plan_vgrename;
