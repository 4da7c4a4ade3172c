//! Why a call on a store is refused.
ghost use Rattle.std.specs.Prelude.{◌≡◌, Some};
ghost use Rattle.cow_store.specs.declared.refusal.CowRefusal.TheVariants.{Fault, NoMemory};
ghost use Rattle.sector_base.specs.Shown.{shown_text};
ghost use Rattle.cow_store.specs.Shown.{shown_cow};

use crate::vol_ops::VolumeFault;
use sector_base::{Shown, write_shown};
use std::alloc::AllocError;
use std::fmt;
use thiserror::Error;

/// Why a store isn't taken or opened, or why a call on it is refused.
#[derive(Clone, Copy, Debug, Drop, PartialEq, Eq, Error)]
pub enum CowRefusal {
    /// Memory is wanting.
    NoMemory,
    /// The store has fewer sectors than a head, a table and one slot need.
    StoreTooSmall { need: u64, have: u64 },
    /// The store's first sector doesn't begin as a head does.
    NoHead,
    /// The head says that the origin has the first number of sectors, and it has the second.
    OtherLength(u64, u64),
    /// The entry of this slot has a value that names a chunk outside of the origin, or one that was listed before.
    BadEntry(u64, u64),
    /// The sector's end is past the origin's. An end past 2^64 - 1 is given as 2^64 - 1.
    PastEnd { end: u64, length: u64 },
    /// None of so many slots is free for the sector's chunk.
    Full(u64),
    /// An operation of this volume failed: 0 is the origin, 1 the store.
    Fault(u32),
    /// An operation has failed in an earlier call.
    Spent,
}

/// The volumes that were handed in for a store, and why there is none.
#[derive(Drop)]
pub struct CowRefused<V> {
    pub vols: V,
    pub why: CowRefusal,
}

/// The kind, and the values in the order of the fields, separated by single spaces.
impl fmt::Display for CowRefusal {
    ghost output = { λ refusal. Some (shown_text (shown_cow refusal)) };

    fn fmt<W: fmt::Write>(&self, f: &mut fmt::Formatter<W>) -> fmt::Result {
        match *self {
            CowRefusal::NoMemory => write_shown(f, "NoMemory", &[]),
            CowRefusal::StoreTooSmall { need, have } => write_shown(
                f,
                "StoreTooSmall",
                &[Shown::Number(need), Shown::Number(have)],
            ),
            CowRefusal::NoHead => write_shown(f, "NoHead", &[]),
            CowRefusal::OtherLength(said, found) => write_shown(
                f,
                "OtherLength",
                &[Shown::Number(said), Shown::Number(found)],
            ),
            CowRefusal::BadEntry(slot, value) => write_shown(
                f,
                "BadEntry",
                &[Shown::Number(slot), Shown::Number(value)],
            ),
            CowRefusal::PastEnd { end, length } => write_shown(
                f,
                "PastEnd",
                &[Shown::Number(end), Shown::Number(length)],
            ),
            CowRefusal::Full(slots) => write_shown(f, "Full", &[Shown::Number(slots)]),
            CowRefusal::Fault(volume) => {
                write_shown(f, "Fault", &[Shown::Number(u64::from(volume))])
            }
            CowRefusal::Spent => write_shown(f, "Spent", &[]),
        }
    }
}

impl From<AllocError> for CowRefusal {
    ghost from_gives = { λ _ e. e ≡ NoMemory };

    fn from(_e: AllocError) -> CowRefusal {
        CowRefusal::NoMemory
    }
}

impl From<VolumeFault> for CowRefusal {
    ghost from_gives = { λ fault e. e ≡ Fault fault.volume };

    fn from(fault: VolumeFault) -> CowRefusal {
        CowRefusal::Fault(fault.volume)
    }
}
