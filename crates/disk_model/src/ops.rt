//! Operations on a row of disks.
use sector_base::{Sectors, Span};

/// An operation.
#[derive(Debug, Drop)]
pub enum Op {
    /// Reads the span into the buffer, which has as many sectors.
    Read(Span, Sectors),
    /// Writes the sectors, as many as the span has, to it.
    Write(Span, Sectors),
    /// Makes lasting what was written to the disk of this number.
    Flush(u32),
}

/// An operation that has completed.
#[derive(Debug, Drop)]
pub struct Done {
    /// The tag that its submission answered.
    pub tag: u64,
    /// The operation as it was submitted; a read has the sectors read in its buffer, where it went well.
    pub op: Op,
    pub well: bool,
}
