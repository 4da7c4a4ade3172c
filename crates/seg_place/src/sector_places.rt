//! What the places of a sector are.

use crate::{Ats, MirrorAt};
use sector_base::At;

/// The places of a sector.
#[derive(Debug, Drop)]
pub struct Places {
    /// The one that is read.
    pub primary: At,
    /// Those of the other legs of a mirror segment.
    pub others: Ats,
    /// The region of that segment in which the sector stands.
    pub mirror: Option<MirrorAt>,
}
