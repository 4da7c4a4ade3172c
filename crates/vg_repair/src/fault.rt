//! Why a repair ended.
ghost use Rattle.std.specs.Prelude.{◌≡◌};
ghost use Rattle.vg_repair.specs.declared.fault.RepairFault.TheVariants.{NoMemory};

use std::alloc::{AllocError, AllocFailed};

/// Why a repair ended.
#[derive(Clone, Copy, Debug, Drop, PartialEq, Eq)]
pub enum RepairFault {
    /// Memory was wanting. Nothing was written.
    NoMemory,
    /// An operation failed on this disk.
    Pv(u32),
    /// A stale area on this disk can't take the text beside its committed one: `need` and `room` count sectors. Nothing was
    /// written.
    TooLarge { pv: u32, need: u64, room: u64 },
}

impl From<AllocError> for RepairFault {
    ghost from_gives = { λ _ fault. fault ≡ NoMemory };

    fn from(_: AllocError) -> RepairFault {
        RepairFault::NoMemory
    }
}

impl<T: Drop> From<AllocFailed<T>> for RepairFault {
    ghost from_gives = { λ _ fault. fault ≡ NoMemory };

    fn from(_: AllocFailed<T>) -> RepairFault {
        RepairFault::NoMemory
    }
}
