//! The history of a run of one line, from what its parts do to the disks.
//!
//! There is no code here. `specs/LineRun` says what a run does to its disks: they are opened, what was found is repaired, and
//! the line is carried out, each as far as it came. `specs/Histories` says that such a run has its history, by what it came
//! to, `specs/Places` where on the disks a line and a repair write, and `specs/EachSet` that no set of disks finds an older
//! version of the group once a commit is done.
#![tactic(auto)]

mod each_set;
mod laws;
mod places;

pub use each_set::{done_sets_agree, each_set_finds};
pub use laws::{commit_changes_volumes, line_histories, places_untouched};
pub use places::writes_lie;
