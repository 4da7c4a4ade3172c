//! What a crash may leave while a session's lines run: each sector of a volume is tracked at its place, and every other is as it was.
//!
//! There is no code here: `laws` has what a run keeps. `specs/Tracks` says what holds between events, beside what the disks show.
#![tactic(auto)]

mod laws;

pub use laws::runs_keep_histories;
