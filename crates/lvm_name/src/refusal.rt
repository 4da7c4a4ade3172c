//! Why a text is no name.
ghost use Rattle.std.specs.Prelude.{◌≡◌, Some};
ghost use Rattle.sector_base.specs.Shown.{shown_text};
ghost use Rattle.lvm_name.specs.ShownName.{shown_name};
ghost use Rattle.lvm_name.specs.declared.refusal.NameRefusal.TheVariants.{NoMemory};

use sector_base::{Shown, write_shown};
use std::alloc::AllocError;
use std::fmt;
use thiserror::Error;

/// Why a text is no name, tested in this order.
#[derive(Clone, Copy, Debug, PartialEq, Eq, Error)]
pub enum NameRefusal {
    /// Memory was wanting.
    NoMemory,
    /// The text is empty.
    Empty,
    /// The text has so many bytes, more than 127.
    TooLong(usize),
    /// The text begins with `-`.
    LeadingDash,
    /// The text is `.` or `..`.
    Dots,
    /// The byte at this place is no letter, no digit and none of `+`, `_`, `.` and `-`.
    BadChar(usize),
    /// The name is reserved: of a group, for the keys that stand beside the group in its text; of a volume, for the
    /// hidden volumes that lvm2 makes.
    Reserved,
}

/// The kind, and the values in the order of the fields, separated by single spaces.
impl fmt::Display for NameRefusal {
    ghost output = { λ refusal. Some (shown_text (shown_name refusal)) };

    fn fmt<W: fmt::Write>(&self, f: &mut fmt::Formatter<W>) -> fmt::Result {
        match *self {
            NameRefusal::NoMemory => write_shown(f, "NoMemory", &[]),
            NameRefusal::Empty => write_shown(f, "Empty", &[]),
            NameRefusal::TooLong(bytes) => {
                write_shown(f, "TooLong", &[Shown::Number(bytes as u64)])
            }
            NameRefusal::LeadingDash => write_shown(f, "LeadingDash", &[]),
            NameRefusal::Dots => write_shown(f, "Dots", &[]),
            NameRefusal::BadChar(place) => {
                write_shown(f, "BadChar", &[Shown::Number(place as u64)])
            }
            NameRefusal::Reserved => write_shown(f, "Reserved", &[]),
        }
    }
}

impl From<AllocError> for NameRefusal {
    ghost from_gives = { λ _ refusal. refusal ≡ NoMemory };

    fn from(_: AllocError) -> NameRefusal {
        NameRefusal::NoMemory
    }
}
