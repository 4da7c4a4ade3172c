//! Why a script is refused.
ghost use Rattle.std.specs.Prelude.{◌≡◌};
ghost use Rattle.lvm_script.specs.Script.{in_line};

use command_table::LineFault;
use std::alloc::{AllocError, AllocFailed};

/// Why a line is no command.
#[derive(Clone, Copy, Debug, PartialEq, Eq)]
pub enum LineRefusal {
    /// Memory was wanting.
    NoMemory,
    /// Its fault, and the place of the faulty word in it, from 0.
    Refused(LineFault, u64),
}

impl From<AllocError> for LineRefusal {
    ghost use Rattle.std.specs.Prelude.{◌≡◌};
    ghost use Rattle.lvm_script.specs.declared.script_refusal.LineRefusal.TheVariants.{NoMemory};

    ghost from_gives = { λ _ refusal. refusal ≡ NoMemory };

    fn from(_: AllocError) -> LineRefusal {
        LineRefusal::NoMemory
    }
}

impl LineRefusal {
    /// The same of the line with this number in a script.
    pub fn in_line(self, number: u64) -> ScriptRefusal
        ensures { result ≡ in_line number self }
    {
        match self {
            LineRefusal::NoMemory => ScriptRefusal::NoMemory,
            LineRefusal::Refused(fault, place) => ScriptRefusal::LineRefused {
                number,
                fault,
                place,
            },
        }
    }
}

/// Why a script is refused.
#[derive(Clone, Copy, Debug, PartialEq, Eq)]
pub enum ScriptRefusal {
    /// Memory was wanting.
    NoMemory,
    /// The line with this number, from 1, is the first with a fault. The place is that of the faulty word in it, from 0.
    LineRefused {
        number: u64,
        fault: LineFault,
        place: u64,
    },
}

impl From<AllocError> for ScriptRefusal {
    ghost use Rattle.std.specs.Prelude.{◌≡◌};
    ghost use Rattle.lvm_script.specs.declared.script_refusal.ScriptRefusal.TheVariants.{NoMemory};

    ghost from_gives = { λ _ refusal. refusal ≡ NoMemory };

    fn from(_: AllocError) -> ScriptRefusal {
        ScriptRefusal::NoMemory
    }
}

impl<T: Drop> From<AllocFailed<T>> for ScriptRefusal {
    ghost use Rattle.std.specs.Prelude.{◌≡◌};
    ghost use Rattle.lvm_script.specs.declared.script_refusal.ScriptRefusal.TheVariants.{NoMemory};

    ghost from_gives = { λ _ refusal. refusal ≡ NoMemory };

    fn from(_: AllocFailed<T>) -> ScriptRefusal {
        ScriptRefusal::NoMemory
    }
}
