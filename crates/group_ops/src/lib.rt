//! What a line changes, by the plan of its command: its first refusal, or its change.
#![tactic(auto)]

mod laws;
mod planning;

pub use laws::{change_is_placed, whole_is_state};
pub use planning::plan;
