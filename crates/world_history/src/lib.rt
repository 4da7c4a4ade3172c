//! The history of a world: that what its acts do is a legal history of plain volumes.
//!
//! There is no code here. `specs/Entries` says which entries each act adds, `specs/Told` that entries say what a world has done so far,
//! of each open line which of its sectors have taken place or failed and which are to come, over any shelf; `specs/Ordered` what that
//! makes of a run. Each act keeps it, file by file, and so do events.
//!
//! Where the shelf tells its record, the machine of that history has, between events, what a read of the disks gives
//! (`specs/Contents`): so reads gave what it had, and a write that failed has left of each sector what it held or what was to be written.
//! `proofs/Contents` has its proof. What a crash may leave at each of these moments is told by `world_tracks`.
//!
//! Over any shelf, an answer names a disk only where that disk's count of faults rose in the run (`specs/Faults`, `proofs/Faults`).
//! Where it tells, at most one flush of each disk is in flight at any moment (`specs/Flushing`, `proofs/FlushesKept`).
#![tactic(auto)]
