//! Why a text isn't committed.
ghost use Rattle.std.specs.Prelude.{◌≡◌, Some};
ghost use Rattle.vg_commit.specs.declared.refusal.CommitRefusal.TheVariants.{NoMemory};
ghost use Rattle.sector_base.specs.Shown.{shown_text};
ghost use Rattle.vg_commit.specs.ShownRefusal.{shown_refusal};

use sector_base::{Shown, write_shown};
use std::alloc::{AllocError, AllocFailed};
use std::fmt;
use thiserror::Error;

/// Why a text isn't committed.
#[derive(Clone, Copy, Debug, Drop, PartialEq, Eq, Error)]
pub enum CommitRefusal {
    /// Memory is wanting.
    NoMemory,
    /// An area's committed text leaves fewer sectors than the text needs: `need` and `room` count sectors.
    TooLarge { need: u64, room: u64 },
}

/// The kind, and the values in the order of the fields, separated by single spaces.
impl fmt::Display for CommitRefusal {
    ghost output = { λ refusal. Some (shown_text (shown_refusal refusal)) };

    fn fmt<W: fmt::Write>(&self, f: &mut fmt::Formatter<W>) -> fmt::Result {
        match *self {
            CommitRefusal::NoMemory => write_shown(f, "NoMemory", &[]),
            CommitRefusal::TooLarge { need, room } => write_shown(
                f,
                "TooLarge",
                &[Shown::Number(need), Shown::Number(room)],
            ),
        }
    }
}

impl From<AllocError> for CommitRefusal {
    ghost from_gives = { λ _ e. e ≡ NoMemory };

    fn from(_e: AllocError) -> CommitRefusal {
        CommitRefusal::NoMemory
    }
}

impl<T: Drop> From<AllocFailed<T>> for CommitRefusal {
    ghost from_gives = { λ _ e. e ≡ NoMemory };

    fn from(_e: AllocFailed<T>) -> CommitRefusal {
        CommitRefusal::NoMemory
    }
}
