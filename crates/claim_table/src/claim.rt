//! Pieces as they stand in the table, and what they wait for.

use sector_base::Piece;

/// A piece under its number, and the region that it lies in, if it lies in one.
#[derive(Clone, Copy, Debug, Drop, PartialEq, Eq)]
pub struct Claim {
    pub number: u64,
    pub piece: Piece,
    pub region: Option<u64>,
}

/// What a deferred piece conflicts with.
#[derive(Clone, Copy, Debug, Drop, PartialEq, Eq)]
pub enum By {
    /// A started piece, or one that was deferred earlier, of this number.
    Piece(u64),
    /// A region that is closed for a copy.
    Region(u64),
    /// The suspension of its volume.
    Suspended(u32),
}

/// What becomes of a piece that enters.
#[derive(Clone, Copy, Debug, Drop, PartialEq, Eq)]
pub enum Entry {
    Started,
    Deferred(By),
}
