//! What a scan of the disks finds in every image that a crash may leave while a line is carried out.
//!
//! There is no code here: that each such image has the version of the group that was found or the new one, and that volumes
//! keep their contents, is said by laws.
#![tactic(auto)]

mod laws;

pub use laws::{change_clears, change_keeps_view, change_scans, change_zeroes};
