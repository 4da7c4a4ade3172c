//! What a run came to, and when its line was begun and took place.
ghost use Rattle.std.specs.Prelude.{◌≡◌};
ghost use Rattle.lvm_run.specs.Runs.{ended_by};

use crate::ending::Ending;
use crate::outcome::Outcome;

/// What a run came to, and after how many steps of the disks its line was begun, where one was, and took place, where it did.
#[derive(Debug, Drop)]
pub struct TimedOutcome {
    pub outcome: Outcome,
    pub begun: u64,
    pub took: Option<u64>,
}

impl TimedOutcome {
    /// A run that ended so before anything was done on its disks.
    pub fn ended(ending: Ending) -> Self
        ensures { result ≡ ended_by ending }
    {
        TimedOutcome {
            outcome: Outcome::Ended(ending),
            begun: 0,
            took: None,
        }
    }
}
