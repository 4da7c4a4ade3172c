//! Why words are no command.
use crate::Fault;

/// The words after a command's name aren't those of a command, or memory was wanting.
#[derive(Clone, Copy, Debug, PartialEq, Eq)]
pub enum CommandRefusal {
    /// The first faulty word from the left, by its place.
    Faulty(Fault, u64),
    /// Too few or too many words, or a needed option or value that is missing.
    WrongWords,
    /// Memory was wanting.
    NoMemory,
}
