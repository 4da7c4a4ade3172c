//! Why nothing is given.
ghost use Rattle.std.specs.Prelude.{◌≡◌};
ghost use Rattle.extent_alloc.specs.declared.refusal.AllocRefusal.TheVariants.{NoMemory};

use std::alloc::{AllocError, AllocFailed};

/// Why nothing is given: the first of these that holds, in this order.
#[derive(Clone, Copy, Debug, Drop, PartialEq, Eq)]
pub enum AllocRefusal {
    /// Memory was wanting.
    NoMemory,
    /// The request names this physical volume, which isn't allocatable.
    NotAllocatable(u32),
    /// So many extents are wanted, and fewer are free.
    NoSpace { need: u64, free: u64 },
    /// So many extents are wanted in one run, and the longest is shorter.
    NoRun { need: u64, longest: u64 },
    /// So many physical volumes with room for a leg are wanted, and there are fewer.
    TooFewPvs { need: u32, fit: u32 },
}

impl From<AllocError> for AllocRefusal {
    ghost from_gives = { λ _ e. e ≡ NoMemory };

    fn from(_e: AllocError) -> AllocRefusal {
        AllocRefusal::NoMemory
    }
}

impl<T: Drop> From<AllocFailed<T>> for AllocRefusal {
    ghost from_gives = { λ _ e. e ≡ NoMemory };

    fn from(_e: AllocFailed<T>) -> AllocRefusal {
        AllocRefusal::NoMemory
    }
}
