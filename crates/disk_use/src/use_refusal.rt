//! Why it isn't known whether a disk is in use.
ghost use Rattle.std.specs.Prelude.{◌≡◌};
ghost use Rattle.disk_use.specs.declared.use_refusal.UseRefusal.TheVariants.{NoMemory};
ghost use Rattle.disk_use.specs.Faults.{refusal_of};

use disk_contents::ReadRefusal;
use std::alloc::{AllocError, AllocFailed};
use thiserror::Error;

/// Why it isn't known whether a disk is in use.
#[derive(Clone, Copy, Debug, Drop, PartialEq, Eq, Error)]
pub enum UseRefusal {
    /// Memory is wanting.
    #[error("no memory")]
    NoMemory,
    /// A read of this disk failed.
    #[error("a read of disk {0} failed")]
    ReadFailed(u32),
}

impl From<AllocError> for UseRefusal {
    ghost from_gives = { λ _ e. e ≡ NoMemory };

    fn from(_e: AllocError) -> UseRefusal {
        UseRefusal::NoMemory
    }
}

impl<T: Drop> From<AllocFailed<T>> for UseRefusal {
    ghost from_gives = { λ _ e. e ≡ NoMemory };

    fn from(_e: AllocFailed<T>) -> UseRefusal {
        UseRefusal::NoMemory
    }
}

impl From<ReadRefusal> for UseRefusal {
    ghost from_gives = { λ refusal e. e ≡ refusal_of refusal };

    fn from(refusal: ReadRefusal) -> UseRefusal {
        match refusal {
            ReadRefusal::NoMemory => UseRefusal::NoMemory,
            ReadRefusal::ReadFailed(fault) => UseRefusal::ReadFailed(fault.pv),
        }
    }
}
