//! What a scan of disks finds: what stands on each disk, the group in force with its text, and what is stale, stray,
//! old, missing or unread.
//!
//! A group is used for more than a report only where it is whole: each disk was read, and each of its physical volumes
//! is there.
#![tactic(auto)]

mod areas;
mod disk;
mod found;
mod laws;
mod old;
mod pv_disks;
mod stale;
mod whole;

pub use areas::{held_area, held_areas};
pub use disk::{Disk, DiskTable};
pub use found::{AreaSet, Found, Ids};
pub use laws::{areas_are_shaped, whole_has_its_disks};
pub use old::old_disks;
pub use pv_disks::disks_of;
pub use stale::stale_disks;
pub use whole::{NotWhole, ScanRefused, Whole};
