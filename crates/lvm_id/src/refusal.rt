//! Why a text is no id.
ghost use Rattle.std.specs.Prelude.{Some};
ghost use Rattle.sector_base.specs.Shown.{shown_text};
ghost use Rattle.lvm_id.specs.ShownId.{shown_id};

use sector_base::{Shown, write_shown};
use std::fmt;
use thiserror::Error;

/// Why a text is no id. Places count from 0.
#[derive(Clone, Copy, Debug, PartialEq, Eq, Error)]
pub enum IdRefusal {
    /// The text has so many bytes.
    BadLength(usize),
    /// The byte at this place is no digit, letter, `!` or `#`.
    BadChar(usize),
    /// The byte at this place is no hyphen.
    BadHyphen(usize),
}

/// The kind, and the values in the order of the fields, separated by single spaces.
impl fmt::Display for IdRefusal {
    ghost output = { λ refusal. Some (shown_text (shown_id refusal)) };

    fn fmt<W: fmt::Write>(&self, f: &mut fmt::Formatter<W>) -> fmt::Result {
        match *self {
            IdRefusal::BadLength(length) => write_shown(
                f,
                "BadLength",
                &[Shown::Number(length as u64)],
            ),
            IdRefusal::BadChar(place) => write_shown(f, "BadChar", &[Shown::Number(place as u64)]),
            IdRefusal::BadHyphen(place) => write_shown(
                f,
                "BadHyphen",
                &[Shown::Number(place as u64)],
            ),
        }
    }
}
