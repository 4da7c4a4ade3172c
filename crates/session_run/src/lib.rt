//! Sessions: the lines of a script, run in a world over the disks.
//!
//! `session_script` reads the lines, `run_lines` runs them on what a scan found, and `write_lines` and `status_of_lines` say what is
//! printed of them and with which exit status the program ends.
#![tactic(auto)]

mod printing;
mod running;
mod script;
mod status;

pub use printing::write_lines;
pub use running::{RanLines, run_lines};
pub use script::session_script;
pub use status::status_of_lines;
