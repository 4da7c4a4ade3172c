//! What commands on physical volumes change: pvcreate.
#![tactic(auto)]

mod pvcreate;

pub use pvcreate::plan_pvcreate;
