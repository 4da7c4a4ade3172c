//! What the rows of a file came to.
use dev_shelf::Images;
use row_text::{Failure, Row, Stop};
use std::alloc::{AllocError, Global};

/// How many rows were run, and those that weren't as expected.
#[derive(Drop)]
pub struct Report {
    pub rows: usize,
    pub failures: Vec<Failure>,
}

impl Report {
    /// No row was run.
    pub fn new(alloc: Global) -> Self {
        Report {
            rows: 0,
            failures: Vec::new(alloc),
        }
    }

    /// One row more was run, and left these disks or was stopped.
    pub fn add(
        &mut self,
        alloc: Global,
        row: &Row,
        done: Result<Option<Images>, Stop>,
    ) -> Result<Option<Images>, AllocError> {
        self.rows = self.rows.saturating_add(1);
        match done {
            Ok(left) => Ok(left),
            Err(Stop::NoMemory) => Err(AllocError),
            Err(Stop::Failed(Failure { line, what })) => {
                let what = format!(in alloc; "row {}: {what}", row.title)?;
                self.failures.push(Failure { line, what })?;
                Ok(None)
            }
        }
    }
}
