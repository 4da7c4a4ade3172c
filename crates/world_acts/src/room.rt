//! What the lines under way may still use up.
ghost use Rattle.std.specs.Prelude.{◌≡◌, ◌≤◌, ◌<◌, ◌+◌, ◌^◌, IfOk};
ghost use Rattle.world_acts.specs.Rooms.{Covers, IsCounted, fail_room, fewer, line_room, more, piece_room, start_room};

use crate::open_line::{OpenLine, Work};
use sector_base::Piece;
use std::alloc::AllocError;

/// Operations and sectors of the shelf, writes of the plan and what may wait for flushes, and entries of the journal.
#[derive(Clone, Copy, Debug, Drop, PartialEq, Eq)]
pub struct Room {
    pub ops: u64,
    pub sectors: u64,
    pub writes: u64,
    pub waits: u64,
    pub entries: u64,
}

impl Room {
    /// Nothing.
    pub const NONE: Room = Room {
        ops: 0,
        sectors: 0,
        writes: 0,
        waits: 0,
        entries: 0,
    };

    /// Of a write that has completed well: the write, and an entry.
    pub const OF_WRITE: Room = Room {
        ops: 0,
        sectors: 0,
        writes: 1,
        waits: 0,
        entries: 1,
    };

    /// Of a piece that begins to wait for its flush.
    pub const OF_WAIT: Room = Room {
        ops: 0,
        sectors: 0,
        writes: 0,
        waits: 1,
        entries: 0,
    };

    /// Of an entry.
    pub const OF_ENTRY: Room = Room {
        ops: 0,
        sectors: 0,
        writes: 0,
        waits: 0,
        entries: 1,
    };

    /// What a piece uses up as it starts: its operation, and its sectors.
    pub fn of_start(piece: &Piece) -> Room
        ensures { result ≡ start_room piece.now }
    {
        Room {
            ops: 1,
            sectors: u64::from(piece.count),
            ..Room::NONE
        }
    }

    /// What a started piece that fails won't use up: its write, and its flush; and its entry.
    pub fn of_failure(piece: &Piece, is_through: bool) -> Room
        ensures { result ≡ fail_room piece.now is_through }
    {
        let flushes = u64::from(is_through);
        Room {
            ops: flushes,
            sectors: 0,
            writes: u64::from(piece.write),
            waits: flushes,
            entries: 1,
        }
    }

    /// That of a piece that waits: its operation, its sectors, its write, its entry, and, where its flush is awaited, a flush.
    pub fn of_piece(piece: &Piece, is_through: bool) -> Room
        ensures { result ≡ piece_room piece.now is_through }
    {
        let flushes = u64::from(is_through);
        Room {
            ops: 1 + flushes,
            sectors: u64::from(piece.count),
            writes: u64::from(piece.write),
            waits: flushes,
            entries: 1,
        }
    }

    /// That of a line beside its pieces: its answer, and its entry where it takes place as a whole.
    pub fn of_line(line: &OpenLine) -> Room
        ensures { result ≡ line_room line.now }
    {
        Room {
            entries: if matches!(line.work, Work::Whole(_)) {
                2
            } else {
                1
            },
            ..Room::NONE
        }
    }

    /// Both together. It is refused where that can't be counted.
    pub fn with(&self, other: Room) -> Result<Room, AllocError>
        ensures { IfOk result (λ room. room ≡ more self.now other) }
    {
        Ok(Room {
            ops: self.ops.checked_add(other.ops).ok_or(AllocError)?,
            sectors: self.sectors.checked_add(other.sectors).ok_or(AllocError)?,
            writes: self.writes.checked_add(other.writes).ok_or(AllocError)?,
            waits: self.waits.checked_add(other.waits).ok_or(AllocError)?,
            entries: self.entries.checked_add(other.entries).ok_or(AllocError)?,
        })
    }

    /// So much more.
    pub fn grow(&mut self, other: Room)
        requires { IsCounted (more self.old other) }
        ensures { self.new ≡ more self.old other }
    {
        self.ops += other.ops;
        self.sectors += other.sectors;
        self.writes += other.writes;
        self.waits += other.waits;
        self.entries += other.entries;
    }

    /// So much less.
    pub fn shrink(&mut self, other: Room)
        requires { Covers self.old other }
        ensures { self.new ≡ fewer self.old other }
    {
        self.ops -= other.ops;
        self.sectors -= other.sectors;
        self.writes -= other.writes;
        self.waits -= other.waits;
        self.entries -= other.entries;
    }
}
