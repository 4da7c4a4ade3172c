//! What a file of rows says, as data.
use crate::stop::{Stop, failed_at};
use dev_shelf::{Fail, Hold};
use line_table::EntryKind;
use std::alloc::Global;

/// A row: disks, and what is done with them in turn.
#[derive(Debug, Drop)]
pub struct Row {
    pub line: usize,
    pub title: String,
    pub disks: Vec<DiskPlan>,
    pub acts: Vec<Act>,
    /// Whether a later row begins with a disk that this one leaves.
    pub is_kept: bool,
}

/// A disk of a row.
#[derive(Debug, Drop)]
pub struct DiskPlan {
    pub line: usize,
    pub name: String,
    pub start: DiskStart,
}

/// What a disk is at first.
#[derive(Clone, Copy, Debug, Drop)]
pub enum DiskStart {
    /// So many sectors of zeros.
    Blank(u32),
    /// So many sectors, each of which begins with its number.
    Numbered(u32),
    /// The disk of this number as the row of this number left it.
    Left { row: usize, disk: u32 },
}

/// The number of the disk with the name that stands in the line.
pub fn disk_named(alloc: Global, disks: &[DiskPlan], line: usize, name: &str) -> Result<u32, Stop> {
    for (number, disk) in (0..u32::MAX).zip(disks.iter()) {
        if disk.name.as_str() == name {
            return Ok(number);
        }
    }
    Err(failed_at(alloc, line, "no disk has this name", name))
}

/// What is done with the disks.
#[derive(Debug, Drop)]
pub enum Act {
    Edit(Edit),
    Try(Trial),
}

/// What is written on the disks beside the runs.
#[derive(Debug, Drop)]
pub struct Edit {
    pub line: usize,
    pub kind: EditKind,
}

#[derive(Debug, Drop)]
pub enum EditKind {
    /// These bytes, in the sector from the byte `at` on.
    Put {
        disk: u32,
        sector: usize,
        at: usize,
        bytes: Vec<u8>,
    },
    /// The label of the sector gets its checksum and its number.
    Seal {
        disk: u32,
        sector: usize,
    },
    /// The text is committed on each of the disks, to a metadata area that is given so many bytes where that is said.
    Commit {
        text: Vec<u8>,
        disks: Vec<u32>,
        bytes: Option<u64>,
    },
    /// The disks become what a crash at this moment of the last run leaves, by this choice.
    Crash {
        moment: u64,
        choice: u64,
    },
}

/// A run, and the runs that are made from its record and from where it began.
#[derive(Debug, Drop)]
pub struct Trial {
    pub run: Run,
    pub lists: Vec<List>,
}

/// An enumeration behind a run.
#[derive(Debug, Drop)]
pub enum List {
    /// Each moment of the run's record.
    Moments(Enumeration),
    /// Each operation that fails in turn.
    Failures(FailureList),
}

/// A run, and what is expected of it.
#[derive(Debug, Drop)]
pub struct Run {
    pub line: usize,
    pub words: Vec<String>,
    pub settings: Settings,
    pub expected: Expected,
}

/// What holds for one run.
#[derive(Debug, Drop)]
pub struct Settings {
    pub ids: Vec<u64>,
    pub time: u64,
    pub picks: Vec<u64>,
    pub fails: Vec<Fail>,
    pub holds: Vec<Hold>,
    pub limit: u64,
    pub input: Vec<u8>,
    pub read_fails: Vec<u64>,
    pub write_fails: Vec<u64>,
}

impl Settings {
    /// Nothing is set.
    pub fn new(alloc: Global) -> Self {
        Settings {
            ids: Vec::new(alloc),
            time: 0,
            picks: Vec::new(alloc),
            fails: Vec::new(alloc),
            holds: Vec::new(alloc),
            limit: 0,
            input: Vec::new(alloc),
            read_fails: Vec::new(alloc),
            write_fails: Vec::new(alloc),
        }
    }
}

/// What is expected of a run.
#[derive(Debug, Drop)]
pub struct Expected {
    pub output: Vec<u8>,
    pub status: u8,
    pub others: Vec<Expectation>,
    pub disks: Vec<DiskExpectation>,
}

#[derive(Debug, Drop)]
pub struct Expectation {
    pub line: usize,
    pub what: What,
}

/// What is expected of the disks afterwards.
#[derive(Debug, Drop)]
pub struct DiskExpectation {
    pub line: usize,
    pub what: DiskFact,
}

#[derive(Debug, Drop)]
pub enum What {
    /// How many steps the shelf has taken.
    Steps(u64),
    /// How many held operations were let go.
    Forced(u64),
    /// How many bytes of the source are left.
    Left(u64),
    /// The entries of the journal, with their moments.
    Journal(Vec<(EntryKind, u64)>),
    /// How many lines were answered.
    Answers(u64),
}

/// What stands on the disks.
#[derive(Debug, Drop)]
pub enum DiskFact {
    /// These bytes stand in the sector from the byte `at` on.
    Has {
        disk: u32,
        sector: usize,
        at: usize,
        bytes: Vec<u8>,
    },
    /// So many sectors from `first` on are zeros.
    Zero {
        disk: u32,
        first: usize,
        count: usize,
    },
    /// The sector is zeros from the byte `at` on.
    Rest {
        disk: u32,
        sector: usize,
        at: usize,
    },
    /// So many sectors from `first` on are the same on both disks.
    Same {
        one: u32,
        other: u32,
        first: usize,
        count: usize,
    },
    /// Exactly these sectors of the disk differ from before the run.
    Changed {
        disk: u32,
        spans: Vec<Sites>,
    },
    /// No sector of any disk differs.
    Unchanged,
}

/// The sectors of a disk from the first to the last.
#[derive(Clone, Copy, Debug, Drop)]
pub struct Sites {
    pub first: usize,
    pub last: usize,
}

/// Images that are looked at, each of which has to be one of the versions.
#[derive(Debug, Drop)]
pub struct Enumeration {
    pub line: usize,
    pub choices: Vec<u64>,
    pub versions: Vec<Version>,
}

/// The operations that are to fail in turn, and what is expected then.
#[derive(Debug, Drop)]
pub struct FailureList {
    pub status: u8,
    pub tags: Option<Tags>,
    pub output: Option<Vec<u8>>,
    pub list: Enumeration,
}

/// The operations from the first of these tags to the last.
#[derive(Clone, Copy, Debug, Drop)]
pub struct Tags {
    pub first: u64,
    pub last: u64,
}

/// A version: what may be found on an image.
#[derive(Debug, Drop)]
pub struct Version {
    pub line: usize,
    pub name: String,
    /// It may stand only behind this entry of the journal.
    pub from: Option<EntryKind>,
    /// It may stand only before this entry.
    pub until: Option<EntryKind>,
    pub checks: Vec<Run>,
}
