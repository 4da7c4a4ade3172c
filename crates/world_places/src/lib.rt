//! What holds of a sector's place on a disk while pieces, flushes, commits and answers go on around it.
//!
//! There is no code here. A place is *tracked* (`specs/Tracked`) where each value that a crash may leave there has a source, the
//! base of the sector or a line that writes it, and where each write of the sector that took place and that no answer has made
//! last yet, or that is still under way, is as far as what is known of it says: its mark in the order of the flush plan tells
//! when it lasts. `laws` has what each act keeps of that; that it can be met is shown by a whole life, `proofs/SmallLife`.
//! `specs/Nows` says the same of what a read gives.
#![tactic(auto)]

mod laws;

pub use laws::{
    answers_keep, entries_keep, lives_keep, places_begin, places_hold, reads_hold, steps_keep,
    writes_keep,
};
