//! Why words have no meaning.
use std::alloc::{AllocError, AllocFailed};
use thiserror::Error;

/// Why the words of a command line are refused.
#[derive(Clone, Copy, Debug, PartialEq, Eq, Error)]
pub enum WordsRefusal {
    /// Memory was wanting.
    #[error("no memory")]
    NoMemory,
    /// The words have no meaning.
    #[error("the words have no meaning")]
    NoMeaning,
}

impl From<AllocError> for WordsRefusal {
    ghost use Rattle.std.specs.Prelude.{◌≡◌};
    ghost use Rattle.lvm_words.specs.declared.refusal.WordsRefusal.TheVariants.{NoMemory};

    ghost from_gives = { λ _ refusal. refusal ≡ NoMemory };

    fn from(_: AllocError) -> WordsRefusal {
        WordsRefusal::NoMemory
    }
}

impl<T: Drop> From<AllocFailed<T>> for WordsRefusal {
    ghost use Rattle.std.specs.Prelude.{◌≡◌};
    ghost use Rattle.lvm_words.specs.declared.refusal.WordsRefusal.TheVariants.{NoMemory};

    ghost from_gives = { λ _ refusal. refusal ≡ NoMemory };

    fn from(_: AllocFailed<T>) -> WordsRefusal {
        WordsRefusal::NoMemory
    }
}
