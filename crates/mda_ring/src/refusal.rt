//! Why a text isn't placed or isn't read.
ghost use Rattle.std.specs.Prelude.{◌≡◌, Some};
ghost use Rattle.mda_ring.specs.declared.refusal.RingRefusal.TheVariants.{NoMemory};
ghost use Rattle.sector_base.specs.Shown.{shown_text};
ghost use Rattle.mda_ring.specs.ShownRing.{shown_ring};

use sector_base::{Shown, write_shown};
use std::alloc::{AllocError, AllocFailed};
use std::fmt;
use thiserror::Error;

/// Why a text isn't placed or isn't read.
#[derive(Clone, Copy, Debug, PartialEq, Eq, Error)]
pub enum RingRefusal {
    /// Memory is wanting.
    NoMemory,
    /// The text needs more sectors than the committed one leaves.
    TooLarge { need: u64, room: u64 },
    /// The entry says the first checksum, and the text's bytes have the second.
    SumDiffers { said: u32, found: u32 },
}

/// The kind, and the values in the order of the fields, separated by single spaces.
impl fmt::Display for RingRefusal {
    ghost output = { λ refusal. Some (shown_text (shown_ring refusal)) };

    fn fmt<W: fmt::Write>(&self, f: &mut fmt::Formatter<W>) -> fmt::Result {
        match *self {
            RingRefusal::NoMemory => write_shown(f, "NoMemory", &[]),
            RingRefusal::TooLarge { need, room } => write_shown(
                f,
                "TooLarge",
                &[Shown::Number(need), Shown::Number(room)],
            ),
            RingRefusal::SumDiffers { said, found } => write_shown(
                f,
                "SumDiffers",
                &[Shown::Sum(said), Shown::Sum(found)],
            ),
        }
    }
}

impl From<AllocError> for RingRefusal {
    ghost from_gives = { λ _ e. e ≡ NoMemory };

    fn from(_e: AllocError) -> RingRefusal {
        RingRefusal::NoMemory
    }
}

impl<T: Drop> From<AllocFailed<T>> for RingRefusal {
    ghost from_gives = { λ _ e. e ≡ NoMemory };

    fn from(_e: AllocFailed<T>) -> RingRefusal {
        RingRefusal::NoMemory
    }
}
