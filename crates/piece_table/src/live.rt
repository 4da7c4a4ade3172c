//! Pieces under way.

use flush_waits::Ticket;
use sector_base::{Piece, Sectors};

/// How far a piece has come.
#[derive(Debug, Drop)]
pub enum Stage {
    /// Nothing of it was submitted. What it writes, or room for what it reads, waits with it.
    Waiting(Sectors),
    /// So many of its operations are in flight. Where that at its primary place has failed, this is the disk.
    Started { flying: u32, lost: Option<u32> },
    /// It took place, and so many of its writes wait for a flush.
    Taken { awaited: u32 },
}

/// A piece: its line's place among those that were begun, its sectors, how far it has come, and, where its line is through and it
/// hasn't come to wait for its flush, room to wait.
#[derive(Debug, Drop)]
pub struct LivePiece {
    pub line: u32,
    pub piece: Piece,
    pub stage: Stage,
    pub ticket: Option<Ticket>,
}

/// Whose an operation is: the piece's with this number, at its primary place or at another one.
#[derive(Clone, Copy, Debug, Drop, PartialEq, Eq)]
pub struct Owner {
    pub piece: u64,
    pub primary: bool,
}
