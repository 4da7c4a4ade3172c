//! Why a tree stands for no group.
ghost use Rattle.std.specs.Prelude.{◌≡◌, Some};
ghost use Rattle.sector_base.specs.Shown.{shown_text};
ghost use Rattle.meta_model.specs.ShownGroup.{shown_group};
ghost use Rattle.meta_model.specs.declared.refusal.GroupRefusal.TheVariants.{NoMemory};

use crate::printable::write_kind_and_text;
use sector_base::{Shown, Text, write_shown};
use std::alloc::{AllocError, AllocFailed};
use std::fmt;
use thiserror::Error;

/// Why a tree stands for no group: the first of its keys that is refused.
#[derive(Debug, Drop, Error)]
pub enum GroupRefusal {
    /// Memory was wanting.
    NoMemory,
    /// The key isn't there.
    Missing(Text),
    /// The key has a value of another kind.
    WrongKind(Text),
    /// No status has the word.
    UnknownStatus(Text),
    /// No segment has the type.
    UnknownSegment(Text),
    /// The group is of another kind, by this key.
    Foreign(Text),
    /// So many were said, and so many found.
    CountDiffers(u64, u64),
    /// No volume has the name.
    UnknownName(Text),
    /// The section's name is no name of a group or volume.
    BadName(Text),
    /// The key's value is no id.
    BadId(Text),
}

impl GroupRefusal {
    /// Its name.
    pub fn kind(&self) -> &'static str
        ensures { result.now ≡ (shown_group self.now).0 }
    {
        match self {
            GroupRefusal::NoMemory => "NoMemory",
            GroupRefusal::Missing(_) => "Missing",
            GroupRefusal::WrongKind(_) => "WrongKind",
            GroupRefusal::UnknownStatus(_) => "UnknownStatus",
            GroupRefusal::UnknownSegment(_) => "UnknownSegment",
            GroupRefusal::Foreign(_) => "Foreign",
            GroupRefusal::CountDiffers(_, _) => "CountDiffers",
            GroupRefusal::UnknownName(_) => "UnknownName",
            GroupRefusal::BadName(_) => "BadName",
            GroupRefusal::BadId(_) => "BadId",
        }
    }
}

/// The kind, and the values in the order of the fields, separated by single spaces. Of a text, which has any bytes, each
/// that can't be printed is shown as `?`.
impl fmt::Display for GroupRefusal {
    ghost output = { λ refusal. Some (shown_text (shown_group refusal)) };

    fn fmt<W: fmt::Write>(&self, f: &mut fmt::Formatter<W>) -> fmt::Result {
        let kind = self.kind();
        match self {
            GroupRefusal::NoMemory => write_shown(f, kind, &[]),
            GroupRefusal::CountDiffers(said, found) => write_shown(
                f,
                kind,
                &[Shown::Number(*said), Shown::Number(*found)],
            ),
            GroupRefusal::Missing(text)
            | GroupRefusal::WrongKind(text)
            | GroupRefusal::UnknownStatus(text)
            | GroupRefusal::UnknownSegment(text)
            | GroupRefusal::Foreign(text)
            | GroupRefusal::UnknownName(text)
            | GroupRefusal::BadName(text)
            | GroupRefusal::BadId(text) => write_kind_and_text(f, kind, text),
        }
    }
}

impl From<AllocError> for GroupRefusal {
    ghost from_gives = { λ _ refusal. refusal ≡ NoMemory };

    fn from(_: AllocError) -> GroupRefusal {
        GroupRefusal::NoMemory
    }
}

impl<T: Drop> From<AllocFailed<T>> for GroupRefusal {
    ghost from_gives = { λ _ refusal. refusal ≡ NoMemory };

    fn from(_: AllocFailed<T>) -> GroupRefusal {
        GroupRefusal::NoMemory
    }
}
