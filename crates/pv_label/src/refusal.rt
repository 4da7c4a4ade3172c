//! Why there is no label.
ghost use Rattle.std.specs.Prelude.{Some};
ghost use Rattle.sector_base.specs.Shown.{shown_text};
ghost use Rattle.pv_label.specs.ShownLabel.{shown_label};

use sector_base::{Shown, write_shown};
use std::fmt;
use thiserror::Error;

/// Why no sector is a label. Numbers of sectors count from the start of the disk.
#[derive(Clone, Copy, Debug, Drop, PartialEq, Eq, Error)]
pub enum LabelRefusal {
    /// No sector begins with `LABELONE`.
    NoLabel,
    /// The label in this sector doesn't agree with its checksum.
    BadSum(u32),
    /// The label says that it is that of the first sector, and was found in the second.
    WrongSector(u64, u32),
    /// The label says that the header of the physical volume begins at this byte, and not at byte 32.
    BadOffset(u32),
    /// The label isn't of the type `LVM2 001`.
    BadType,
}

/// The kind, and the values in the order of the fields, separated by single spaces.
impl fmt::Display for LabelRefusal {
    ghost output = { λ refusal. Some (shown_text (shown_label refusal)) };

    fn fmt<W: fmt::Write>(&self, f: &mut fmt::Formatter<W>) -> fmt::Result {
        match *self {
            LabelRefusal::NoLabel => write_shown(f, "NoLabel", &[]),
            LabelRefusal::BadSum(sector) => write_shown(
                f,
                "BadSum",
                &[Shown::Number(u64::from(sector))],
            ),
            LabelRefusal::WrongSector(said, found) => write_shown(
                f,
                "WrongSector",
                &[Shown::Number(said), Shown::Number(u64::from(found))],
            ),
            LabelRefusal::BadOffset(said) => write_shown(
                f,
                "BadOffset",
                &[Shown::Number(u64::from(said))],
            ),
            LabelRefusal::BadType => write_shown(f, "BadType", &[]),
        }
    }
}
