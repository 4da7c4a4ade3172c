//! The states of a mirror segment's regions: Unsynced, Copying or Synced.
//!
//! A `RegionLog` is the list of the states, each call reads or sets one of them, and the least Unsynced region, which a
//! resync or a move copies next, is known without a search.
#![tactic(auto)]

mod log;
mod region;

pub use log::RegionLog;
pub use region::Region;
