//! What a scan of the disks finds in every image that a crash may leave while a repair is carried out.
//!
//! There is no code here: that each such image has the version that was found, with the same text, and the last one exactly
//! what the repair says, is said by laws.
#![tactic(auto)]

mod laws;

pub use laws::{repair_keeps_places, repair_keeps_version, repair_scans};
