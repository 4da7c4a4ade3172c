//! How a shelf in memory is to complete its operations.

/// The order of completions of a `MemShelf`, its failures, and what is held back.
#[derive(Debug, Drop)]
pub struct ShelfPlan {
    /// At each completion the next pick p takes ready operation number p modulo the number that are ready, the oldest
    /// first; after the last pick the oldest completes.
    pub picks: Vec<u64>,
    /// The operations that fail. Of two entries with one tag the first counts.
    pub fails: Vec<Fail>,
    /// What holds writes back. A write that is held isn't ready.
    pub holds: Vec<Hold>,
    /// After so many answers `None` of `reap` in a row, while writes are held, the oldest of these is let go: it is ready from
    /// then on. A limit of 0 lets it go at the first such answer, as 1 does.
    pub limit: u64,
}

/// The operation with this tag fails. Of a write the first `fresh` sectors are new, and the others stay as they were.
#[derive(Clone, Copy, Debug, Drop)]
pub struct Fail {
    pub tag: u64,
    pub fresh: u32,
}

/// A write that covers `sector` of the disk `pv` isn't ready until a write that covers `until` of the disk `until_pv`, and a
/// flush of that disk that was submitted after this write was, have both completed well.
#[derive(Clone, Copy, Debug, Drop)]
pub struct Hold {
    pub pv: u32,
    pub sector: u64,
    pub until_pv: u32,
    pub until: u64,
}
