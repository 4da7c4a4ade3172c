//! Why a word is refused.
ghost use Rattle.std.specs.Prelude.{◌≡◌};
ghost use Rattle.command_table.specs.Words.{fault_word};

/// The fault of a word. Of two faults of one word the earlier here comes first.
#[derive(Clone, Copy, Debug, PartialEq, Eq)]
pub enum Fault {
    /// It begins with `-`, and is no option of its command, or stands a second time; or it is no policy of allocation.
    BadOption,
    /// It stands where a number or a size has to stand, and isn't one that fits 64 bits.
    BadNumber,
    /// It is a number or a size outside of what is allowed there, or hex digits of another number of sectors.
    BadCount,
    /// It stands where a name has to stand, and isn't one.
    BadName,
    /// It stands where hex digits have to stand, and has another byte.
    BadHex,
}

impl Fault {
    /// The word that it prints as.
    pub fn word(self) -> &'static str
        ensures { result.now ≡ fault_word self }
    {
        match self {
            Fault::BadOption => "BadOption",
            Fault::BadNumber => "BadNumber",
            Fault::BadCount => "BadCount",
            Fault::BadName => "BadName",
            Fault::BadHex => "BadHex",
        }
    }
}
