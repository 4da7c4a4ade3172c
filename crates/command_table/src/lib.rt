//! The commands, with their options and arguments, in one table, and what words mean by it.
//!
//! Words are read from left to right by the table (`table`, `reading`), and what they mean is a function of them
//! (`meaning`), on a command line and in a script alike.
#![tactic(auto)]

mod amount;
mod command;
mod commands;
mod fault;
mod given_options;
mod kind;
mod line_fault;
mod meaning;
mod option_key;
mod reading;
mod refusal;
mod request;
mod role;
mod table;
mod values;

pub use amount::{Amount, Growth};
pub use command::{Command, Moving, Names, NewVolume, Path};
pub use fault::Fault;
pub use given_options::GivenOptions;
pub use kind::Kind;
pub use line_fault::LineFault;
pub use meaning::{read_command, request_by_name};
pub use option_key::OptionKey;
pub use reading::{Reading, has_key, option_named};
pub use refusal::CommandRefusal;
pub use request::{Request, Session};
pub use table::{CommandName, OptionRow};
pub use values::{fault_in, is_disk_name};
