//! The lines that words and scripts ask for.
//!
//! A line is a command with its number and the id that it draws (`line`). It is read from the words of a command line
//! (`words`), or from the text of a script (`script`), whose first faulty line is refused.
#![tactic(auto)]

mod line;
mod script;
mod script_refusal;
mod words;

pub use line::Line;
pub use script::{Script, script_of};
pub use script_refusal::{LineRefusal, ScriptRefusal};
pub use words::{line_of, read_request};
