//! Files of rows, read as data: disks, what is done with them, the runs, and what is expected of each (docs/ROWS.md).
//!
//! Nothing is run here, and no disk is made: that is done by `lvm_rows`, which stands above the run and above this. So
//! reading a file is proved beside all that a run consists of.
#![tactic(auto)]

mod disks;
mod edits;
mod enumerations;
mod expectations;
mod file;
mod line;
mod reader;
mod row;
mod settings;
mod stop;
mod texts;
mod values;

pub use file::rows_of;
pub use row::{
    Act, DiskExpectation, DiskFact, DiskPlan, DiskStart, Edit, EditKind, Enumeration, Expectation,
    Expected, FailureList, List, Row, Run, Settings, Sites, Tags, Trial, Version, What,
};
pub use stop::{Failure, Stop, failed};
