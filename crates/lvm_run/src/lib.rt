//! All that the program does, over any row of disks, any streams and any source of ids.
//!
//! `lvm_run` runs the words of a command line, and what is promised of the program are its clauses. `guarded_run` calls it once no
//! disk that the command takes is in use, or where it is forced.
//! `sessions_complete` is a law of sessions: each line is done, where nothing fails and no line is refused.
#![tactic(auto)]

mod built;
mod changing;
mod commands;
mod completeness;
mod disks_refusal;
mod ending;
mod entered;
mod guarded;
mod not_run;
mod opening;
mod outcome;
mod output;
mod run;
mod scanned;
mod session;
mod session_words;
mod sourced;
mod timed_outcome;

pub use built::{BUILT, is_built, is_built_session};
pub use completeness::sessions_complete;
pub use guarded::guarded_run;
pub use not_run::NotRun;
pub use run::{Ended, lvm_run};
