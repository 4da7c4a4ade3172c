//! Why nothing ran.
use disk_use::{InUse, UseRefusal};

/// Why nothing ran.
#[derive(Clone, Copy, Debug)]
pub enum NotRun {
    /// A disk that the command would take is in use.
    InUse(InUse),
    /// It couldn't be told whether one is.
    Untold(UseRefusal),
}
