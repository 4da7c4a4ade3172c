//! What readings of disks come to: the group in force, or why none is taken.
#![tactic(auto)]

mod best;
mod copy_refusal;
mod deciding;
mod decision;
mod duplicates;
mod held;
mod laws;
mod listed;
mod missing;
mod readings;
mod refusals;
mod same;
mod shape;
mod stale;
mod strays;
mod texts;

pub use copy_refusal::CopyRefusal;
pub use deciding::decide;
pub use decision::{Decided, ScanRefusal};
pub use laws::{
    scans_find_versions, scans_tell_what_to_repair, shape_is_of_headers,
    silent_disks_change_nothing,
};
pub use readings::{AreaGives, AreaRead, DiskRead, GroupCopy, PvRead, Readings};
pub use same::same_id;
