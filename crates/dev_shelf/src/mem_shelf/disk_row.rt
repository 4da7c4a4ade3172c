//! The disks of a shelf in memory.
use super::recorded::{RecordedOp, RecordedStep};
use crate::Fail;
use op_queue::OpQueue;
use sector_base::{Bytes512, Sectors};

/// The disks as they were opened and as they are now, what is in flight, and the record.
#[derive(Drop)]
pub struct DiskRow {
    pub opened: Vec<Sectors>,
    pub current: Vec<Sectors>,
    pub queue: OpQueue,
    /// What is recorded of each operation in flight, the oldest first.
    pub in_flight: Vec<RecordedOp>,
    pub steps: Vec<RecordedStep>,
    /// The sectors of all writes, one write after another.
    pub written: Vec<Bytes512>,
    pub fails: Vec<Fail>,
}
