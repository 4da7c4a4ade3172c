//! What a scan found to be stale, old or a stray is put right, before anything else is changed.
//!
//! Each stale area of the group gets the text that was found, byte for byte, by the three batches of a commit. Then the label
//! sector of each old disk is written again at its place, with version 2 and the flag that says that a group uses the
//! physical volume. Then each stray's label sector is written without that flag, and only once that lasts each metadata area
//! of the strays gets an empty header. So a stop in between leaves a stray a stray. Areas that are ignored stay as they are.
//!
//! `specs/Stale` has what is stale, `specs/Batches` all that is written, `specs/Repaired` what is found afterwards,
//! `specs/Repairing` what is promised, and `specs/Laws` what follows in every image.
#![tactic(auto)]

mod areas;
mod batches;
mod fault;
mod laws;
mod repaired;
mod repairing;
mod stale_set;

pub use fault::RepairFault;
pub use laws::leaves_all;
pub use repairing::repair;
