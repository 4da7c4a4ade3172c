//! The words of the command line: the pairs `-d NAME` at its front, which name the disks of the run, and the command after
//! them, which `clap` takes apart.
//!
//! What the words mean is a function of them, and each call answers exactly that, or that memory was wanting.
#![tactic(auto)]

mod asked;
mod command_line;
mod disks;
mod fault;
mod other_call;
mod parser;
mod refusal;
mod request;

pub use asked::{Asked, Task, read_words};
pub use command_line::{CommandLine, read_command_line};
pub use disks::disk_names;
pub use fault::{WordsFault, fault_of_command_line};
pub use other_call::OtherCall;
pub use refusal::WordsRefusal;
