//! What a line is judged against, the refusals that several commands share, and what a line changes.
//!
//! A line is answered by the first row of its command that holds, or by its change (`specs/Plans`). Rows are functions of the
//! group in force, the disks and their metadata areas (`state`), and of the line; a change is the new group, the label sectors that
//! are written, the sectors that are to hold zeros before, and the disks that leave. Nothing is written here.
#![tactic(auto)]

mod added;
mod backup;
mod committing;
mod copied;
mod ids;
mod joined_group;
mod judging;
mod marks;
mod members;
mod refusal;
mod state;
mod stripes;

pub use added::{AddedPv, copied_header, find_all_added, judge_known, judge_one_known};
pub use backup::{Backup, read_backup};
pub use committing::{
    LAST_SEQNO, commit_version, commit_version_on, commit_zeroed, is_named, judge_name,
    judge_named, judge_resizeable, judge_seqno, judge_write, unknown_group,
};
pub use copied::{copied_bytes, copied_disks, copied_text, group_name, volume_name};
pub use ids::has_id;
pub use joined_group::{commit, disks_with};
pub use judging::{judge_areas, judge_count, judge_sizes, judge_used, set_of, stands_on_disk};
pub use marks::marked;
pub use members::{judge_members, pv_named, pvs_named};
pub use refusal::PlanRefusal;
pub use state::{Change, GroupState, Labels, NewLabel, Spans};
pub use stripes::{judge_stripe, judge_stripes};
