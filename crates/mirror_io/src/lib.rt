//! Which legs of a mirror a piece uses, by the state of its region.
//!
//! A region whose legs agree is written at all of them, the primary first, and any other at the primary alone. A read uses the
//! primary alone; where that fails in a region whose legs agree, it goes on at the next leg, until each was tried.
//!
//! Today every region counts as Unsynced, so a session's piece uses its primary place alone, and nobody asks here yet.
//! Sessions call this crate once moves and resync come.
#![tactic(auto)]

mod next_leg;
mod used_legs;

pub use next_leg::after_read_fault;
pub use used_legs::legs;
