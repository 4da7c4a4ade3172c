//! The record of a shelf in memory: its steps, with the sectors of writes kept apart.
use sector_base::Span;

/// What a recorded operation does. The sectors of a write stand among all that were written, from the place `from` on.
#[derive(Clone, Copy, Debug, Drop)]
pub enum RecordedWork {
    Reads(Span),
    Writes(Span, usize),
    Flushes(u32),
}

/// A recorded step: the operation with this tag was submitted, or completed, well or not, a write that failed with so
/// many new sectors.
#[derive(Clone, Copy, Debug, Drop)]
pub enum RecordedStep {
    Began(u64, RecordedWork),
    Ended(u64, RecordedWork, bool, u32),
}

/// An operation in flight, as it is recorded.
#[derive(Clone, Copy, Debug, Drop)]
pub struct RecordedOp {
    pub tag: u64,
    pub work: RecordedWork,
}
