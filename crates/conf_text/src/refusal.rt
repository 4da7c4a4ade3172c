//! Why a text has no tree.
ghost use Rattle.std.specs.Prelude.{◌≡◌, Some};
ghost use Rattle.sector_base.specs.Shown.{shown_text};
ghost use Rattle.conf_text.specs.declared.refusal.ConfRefusal.TheVariants.{NoMemory};
ghost use Rattle.conf_text.specs.ShownConf.{shown_conf};

use sector_base::{Shown, write_shown};
use std::alloc::{AllocError, AllocFailed};
use std::fmt;
use thiserror::Error;

/// Why a text has no tree, and where. Places count bytes from 0.
#[derive(Clone, Copy, Debug, PartialEq, Eq, Error)]
pub enum ConfRefusal {
    /// Memory is wanting.
    NoMemory,
    /// The byte at this place can't go on, or the text ends here after a name or `=`.
    BadToken(usize),
    /// The bracket or quote at this place is the innermost that is open at the end.
    Unclosed(usize),
    /// The name at this place stands in the section already.
    DuplicateKey(usize),
    /// The number at this place doesn't fit 64 bits.
    NumberTooWide(usize),
    /// The `{` at this place is the seventeenth that is open.
    TooDeep(usize),
}

impl ConfRefusal {
    /// Its name.
    pub fn kind(&self) -> &'static str
        ensures { result.now ≡ (shown_conf self.now).0 }
    {
        match self {
            ConfRefusal::NoMemory => "NoMemory",
            ConfRefusal::BadToken(_) => "BadToken",
            ConfRefusal::Unclosed(_) => "Unclosed",
            ConfRefusal::DuplicateKey(_) => "DuplicateKey",
            ConfRefusal::NumberTooWide(_) => "NumberTooWide",
            ConfRefusal::TooDeep(_) => "TooDeep",
        }
    }
}

/// The kind, and the place where there is one, separated by a space.
impl fmt::Display for ConfRefusal {
    ghost output = { λ refusal. Some (shown_text (shown_conf refusal)) };

    fn fmt<W: fmt::Write>(&self, f: &mut fmt::Formatter<W>) -> fmt::Result {
        match *self {
            ConfRefusal::NoMemory => write_shown(f, "NoMemory", &[]),
            ConfRefusal::BadToken(place) => {
                write_shown(f, "BadToken", &[Shown::Number(place as u64)])
            }
            ConfRefusal::Unclosed(place) => {
                write_shown(f, "Unclosed", &[Shown::Number(place as u64)])
            }
            ConfRefusal::DuplicateKey(place) => {
                write_shown(f, "DuplicateKey", &[Shown::Number(place as u64)])
            }
            ConfRefusal::NumberTooWide(place) => {
                write_shown(f, "NumberTooWide", &[Shown::Number(place as u64)])
            }
            ConfRefusal::TooDeep(place) => {
                write_shown(f, "TooDeep", &[Shown::Number(place as u64)])
            }
        }
    }
}

impl From<AllocError> for ConfRefusal {
    ghost from_gives = { λ _ e. e ≡ NoMemory };

    fn from(_e: AllocError) -> ConfRefusal {
        ConfRefusal::NoMemory
    }
}

impl<T: Drop> From<AllocFailed<T>> for ConfRefusal {
    ghost from_gives = { λ _ e. e ≡ NoMemory };

    fn from(_e: AllocFailed<T>) -> ConfRefusal {
        ConfRefusal::NoMemory
    }
}
