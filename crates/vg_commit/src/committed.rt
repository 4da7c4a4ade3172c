//! What was committed.
use mda_ring::Areas;

/// A commit that is whole: the areas with their new entries.
#[derive(Debug, Drop)]
pub struct Committed {
    pub areas: Areas,
}
