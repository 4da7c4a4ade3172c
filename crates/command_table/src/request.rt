//! What the words of a command line ask for.
use crate::Command;
use lvm_name::GroupName;

/// What the words of a session say.
#[derive(Debug, Drop)]
pub struct Session {
    /// The name of its group.
    pub group: GroupName,
    /// How many workers carry out its lines, 1 to 8.
    pub workers: u32,
    /// Each disk gets a thread of its own.
    pub disk_threads: bool,
    /// What the disks have done is shown while it runs.
    pub status: bool,
}

/// What the words of a command line ask for, after the pairs `-d NAME`.
#[derive(Debug, Drop)]
pub enum Request {
    /// One command.
    One(Command),
    /// A session, whose script comes from the source.
    Session(Session),
    /// The demo with this seed, so many lines, 1 to 4,096, and so many workers, 1 to 8.
    Demo { seed: u64, lines: u64, workers: u32 },
}
