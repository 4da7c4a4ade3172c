//! What ends a row, or the reading of a file.
use std::alloc::{AllocError, AllocFailed, Global};

/// What isn't as it has to be, and in which line of the file that is said.
#[derive(Debug, Drop)]
pub struct Failure {
    pub line: usize,
    pub what: String,
}

/// Why a row, or the reading of a file, isn't finished.
#[derive(Debug, Drop)]
pub enum Stop {
    NoMemory,
    Failed(Failure),
}

impl From<AllocError> for Stop {
    fn from(_: AllocError) -> Self {
        Stop::NoMemory
    }
}

impl<T: Drop> From<AllocFailed<T>> for Stop {
    fn from(_: AllocFailed<T>) -> Self {
        Stop::NoMemory
    }
}

/// The stop that this is so, in the line of this number.
pub fn failed(alloc: Global, line: usize, what: &str) -> Stop {
    match String::from_str(alloc, what) {
        Ok(what) => Stop::Failed(Failure { line, what }),
        Err(AllocError) => Stop::NoMemory,
    }
}

/// The same of a word in the line.
pub fn failed_at(alloc: Global, line: usize, what: &str, word: &str) -> Stop {
    match format!(in alloc; "{what}: {word}") {
        Ok(what) => Stop::Failed(Failure { line, what }),
        Err(AllocError) => Stop::NoMemory,
    }
}
