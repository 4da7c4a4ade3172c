//! The answers of lines and the refusals of commands, and how they are printed.
#![tactic(auto)]

mod answer;
mod disk_names;
mod op_refusal;
mod shown;
mod token;

pub use answer::Answer;
pub use disk_names::DiskNames;
pub use op_refusal::OpRefusal;
pub use shown::{Shown, write_kind};
