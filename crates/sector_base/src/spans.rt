//! Runs of sectors of one disk.
ghost use Rattle.std.specs.Prelude.{Some};
ghost use Rattle.sector_base.specs.Shown.{shown_text};
ghost use Rattle.sector_base.specs.ShownSpan.{shown_span};

use crate::{Shown, write_shown};
use std::fmt;
use thiserror::Error;

/// A run of `count` sectors of the disk `pv`, from the sector `first` on.
#[derive(Clone, Copy, Debug, Drop, PartialEq, Eq)]
pub struct Span {
    pub pv: u32,
    pub first: u64,
    pub count: u32,
}

/// Why there is no such span.
#[derive(Clone, Copy, Debug, PartialEq, Eq, Error)]
pub enum SpanRefusal {
    Empty,
    /// Its end, in sectors, is past the disk's. An end past 2^64 - 1 is given as 2^64 - 1.
    PastEnd { end: u64, disk: u64 },
}

/// The kind, and the values in the order of the fields, separated by single spaces.
impl fmt::Display for SpanRefusal {
    ghost output = { λ refusal. Some (shown_text (shown_span refusal)) };

    fn fmt<W: fmt::Write>(&self, f: &mut fmt::Formatter<W>) -> fmt::Result {
        match *self {
            SpanRefusal::Empty => write_shown(f, "Empty", &[]),
            SpanRefusal::PastEnd { end, disk } => write_shown(
                f,
                "PastEnd",
                &[Shown::Number(end), Shown::Number(disk)],
            ),
        }
    }
}
