//! The rules that a volume group keeps, as statements about its volumes, segments and legs, and what tells whether it does.
//!
//! A group that breaks a rule is never used. What legs cover is one list of runs of extents; whether they lie apart is
//! found by sorting them.
#![tactic(auto)]

mod laws;
mod rule;
mod runs;

pub use laws::rules_are_tested;
pub use rule::Rule;
pub use runs::{lie_apart, sort_runs};
