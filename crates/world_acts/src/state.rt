//! What a world keeps beside its shelf.

use crate::open_lines::OpenLines;
use crate::room::Room;
use crate::volumes::Volumes;
use flush_waits::FlushWaits;
use line_table::LineTable;
use piece_table::PieceTable;
use sector_base::PvSet;
use std::alloc::Global;

/// The lines, those that aren't answered by their places, the volumes, the pieces, what waits for flushes, the disks that failed,
/// the line that waits for all others, and what the lines may still use up.
#[derive(Drop)]
pub struct Core {
    pub alloc: Global,
    pub lines: LineTable,
    pub opens: OpenLines,
    pub volumes: Volumes,
    pub pieces: PieceTable,
    pub waits: FlushWaits,
    pub failed: PvSet,
    pub barrier: Option<u32>,
    pub owed: Room,
}
