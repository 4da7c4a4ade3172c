//! Why what stands on a disk wasn't found.
ghost use Rattle.std.specs.Prelude.{◌≡◌};
ghost use Rattle.disk_contents.specs.declared.read_refusal.ReadRefusal.TheVariants.{NoMemory, ReadFailed};

use disk_model::DiskFault;
use std::alloc::{AllocError, AllocFailed};
use thiserror::Error;

/// Why what stands on a disk wasn't found.
#[derive(Clone, Copy, Debug, Drop, PartialEq, Eq, Error)]
pub enum ReadRefusal {
    /// Memory is wanting.
    #[error("no memory")]
    NoMemory,
    /// A read of the disk failed.
    #[error("{0}")]
    ReadFailed(DiskFault),
}

impl From<AllocError> for ReadRefusal {
    ghost from_gives = { λ _ e. e ≡ NoMemory };

    fn from(_e: AllocError) -> ReadRefusal {
        ReadRefusal::NoMemory
    }
}

impl<T: Drop> From<AllocFailed<T>> for ReadRefusal {
    ghost from_gives = { λ _ e. e ≡ NoMemory };

    fn from(_e: AllocFailed<T>) -> ReadRefusal {
        ReadRefusal::NoMemory
    }
}

impl From<DiskFault> for ReadRefusal {
    ghost from_gives = { λ fault e. e ≡ ReadFailed fault };

    fn from(fault: DiskFault) -> ReadRefusal {
        ReadRefusal::ReadFailed(fault)
    }
}
