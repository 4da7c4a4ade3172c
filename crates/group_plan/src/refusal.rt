//! Why a line changes nothing.
ghost use Rattle.std.specs.Prelude.{◌≡◌};
ghost use Rattle.group_plan.specs.declared.refusal.PlanRefusal.TheVariants.{NoMemory};

use line_answers::OpRefusal;
use std::alloc::{AllocError, AllocFailed};

/// Why a line changes nothing.
#[derive(Debug, Drop)]
pub enum PlanRefusal {
    /// Memory was wanting.
    NoMemory,
    /// The line is refused.
    Refused(OpRefusal),
}

impl From<AllocError> for PlanRefusal {
    ghost from_gives = { λ _ refusal. refusal ≡ NoMemory };

    fn from(_: AllocError) -> PlanRefusal {
        PlanRefusal::NoMemory
    }
}

impl<T: Drop> From<AllocFailed<T>> for PlanRefusal {
    ghost from_gives = { λ _ refusal. refusal ≡ NoMemory };

    fn from(_: AllocFailed<T>) -> PlanRefusal {
        PlanRefusal::NoMemory
    }
}
