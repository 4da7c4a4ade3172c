//! Which extents of a physical volume lie in no leg.
//!
//! What the legs on the volume cover is one list of runs of extents; the free runs are the gaps between them once they are
//! sorted.
#![tactic(auto)]

mod all_free;
mod by_volume;
mod extent_run;
mod free;
mod gap_runs;
mod leg;
mod leg_runs;
mod used_extents;

pub use all_free::all_free_runs;
pub use extent_run::{ExtentRun, ExtentRuns, FreeRuns};
pub use free::{free_count, free_runs};
pub use used_extents::used;
