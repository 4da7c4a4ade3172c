//! Why a line didn't do what it asks for.
ghost use Rattle.std.specs.Prelude.{◌≡◌};
ghost use Rattle.vg_change.specs.CarryingOut.{fault_of};
ghost use Rattle.vg_change.specs.declared.fault.ChangeFault.TheVariants.{NoMemory};

use group_plan::PlanRefusal;
use line_answers::OpRefusal;
use std::alloc::{AllocError, AllocFailed};

/// Why a line didn't do what it asks for.
#[derive(Debug, Drop)]
pub enum ChangeFault {
    /// Memory was wanting. Nothing was written.
    NoMemory,
    /// The line is refused. Nothing was written.
    Refused(OpRefusal),
    /// An operation failed on this disk.
    Failed(u32),
    /// An operation failed on this disk while disks were cleared that the group lets go. At this moment, counted in submissions and
    /// completions, the change was made.
    Uncleared { pv: u32, made: u64 },
}

impl From<PlanRefusal> for ChangeFault {
    ghost from_gives = { λ refusal fault. fault ≡ fault_of refusal };

    fn from(refusal: PlanRefusal) -> ChangeFault {
        match refusal {
            PlanRefusal::NoMemory => ChangeFault::NoMemory,
            PlanRefusal::Refused(refusal) => ChangeFault::Refused(refusal),
        }
    }
}

impl From<AllocError> for ChangeFault {
    ghost from_gives = { λ _ fault. fault ≡ NoMemory };

    fn from(_: AllocError) -> ChangeFault {
        ChangeFault::NoMemory
    }
}

impl<T: Drop> From<AllocFailed<T>> for ChangeFault {
    ghost from_gives = { λ _ fault. fault ≡ NoMemory };

    fn from(_: AllocFailed<T>) -> ChangeFault {
        ChangeFault::NoMemory
    }
}
