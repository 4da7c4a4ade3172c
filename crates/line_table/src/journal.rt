//! The journal of a run, and the answers of its lines.
use line_answers::Answer;
use sector_base::Piece;

/// What an entry of the journal says of its line.
#[derive(Clone, Copy, Debug, Drop, PartialEq, Eq)]
pub enum EntryKind {
    /// The line is begun.
    Begun,
    /// A piece of it takes place, or a command.
    Took,
    /// A piece of it fails.
    Failed,
    /// It is answered.
    Answered,
}

/// An entry of the journal. The line is its place among those that were begun, from 0, and the moment counts the steps of
/// the disks before it. Where there is no piece `count` is 0, and `volume` is the key of the volume that a line names which
/// is begun, else 0.
#[derive(Clone, Copy, Debug, Drop, PartialEq, Eq)]
pub struct JournalEntry {
    pub kind: EntryKind,
    pub line: u32,
    pub piece: Piece,
    pub moment: u64,
}

/// The entries of a run, the oldest first.
pub type Journal = Vec<JournalEntry>;

/// Of each line that was begun, in order, its number and its answer, or none yet.
pub type Answers = Vec<(u64, Option<Answer>)>;
