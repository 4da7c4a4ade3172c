//! The error of a device.
use thiserror::Error;

/// An operation of a disk failed.
#[derive(Clone, Copy, Debug, Drop, PartialEq, Eq, Error)]
#[error("an operation of disk {pv} failed")]
pub struct DiskFault {
    /// The number of the disk.
    pub pv: u32,
}
