//! Whether a disk that a command would take is in use: by the label of a group that isn't found on the disks of the run, or,
//! where a physical volume is to be made of it, by a label whose header can't be read or by what stands there that isn't
//! lvm2's. Of disks that were scanned, which one is in use by the label of a group that wasn't found.
//!
//! It reads and never writes. What is in use is determined by the disks' sectors: what stands on a disk, its first
//! signature, and what a scan of all disks finds.
#![tactic(auto)]

mod find;
mod in_use;
mod look;
mod marked;
mod taken;
mod unlisted;
mod use_refusal;

pub use find::find_use;
pub use in_use::{InUse, Use};
pub use unlisted::first_unlisted;
pub use use_refusal::UseRefusal;
