//! The longest runs first.
ghost use Rattle.std.specs.Prelude.{OnOk};
ghost use Rattle.extent_alloc.specs.Taking.{IsLongestFirst};

use crate::part::PvRun;
use std::alloc::AllocError;

// Puts the longest first. Of equal ones the first stays first.
pub(crate) fn sort_longest_first(runs: &mut Vec<PvRun>) -> Result<(), AllocError>
    ensures { OnOk result (IsLongestFirst runs.old.items runs.new.items) }
{
    runs.sort_by_key(|run| u64::MAX - run.count)?;
    Ok(())
}
