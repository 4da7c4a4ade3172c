//! Why a line is refused, but for want of memory.
ghost use Rattle.std.specs.Prelude.{◌≡◌};
ghost use Rattle.command_table.specs.Words.{line_fault_word};

use crate::Fault;

/// The fault of a line.
#[derive(Clone, Copy, Debug, PartialEq, Eq)]
pub enum LineFault {
    /// Its first word is no command.
    UnknownWord,
    /// Its command doesn't stand in scripts.
    NotHere,
    /// A word is faulty.
    Faulty(Fault),
    /// There are too few or too many words, or they don't go together.
    WrongWords,
    /// It is past the last line that a script has, or its sectors are too many.
    SessionFull,
}

impl LineFault {
    /// The word that it prints as.
    pub fn word(self) -> &'static str
        ensures { result.now ≡ line_fault_word self }
    {
        match self {
            LineFault::UnknownWord => "UnknownWord",
            LineFault::NotHere => "NotHere",
            LineFault::Faulty(fault) => fault.word(),
            LineFault::WrongWords => "WrongWords",
            LineFault::SessionFull => "SessionFull",
        }
    }
}
