//! The gaps between runs in order.
ghost use Rattle.std.specs.Prelude.{◌≡◌, ◌++◌, IfOk, OnOk};
ghost use Rattle.extent_map.specs.Gaps.{StandBetween, gap, gaps};

use crate::ExtentRun;
use meta_model::ExtentSpan;
use std::alloc::{AllocError, Global};

// The gaps before, between and behind the runs, up to the end.
pub(crate) fn gaps_between(
    alloc: Global,
    runs: &[ExtentSpan],
    end: u64,
) -> Result<Vec<ExtentRun>, AllocError>
    requires { StandBetween 0 end runs.now }
    ensures { IfOk result (λ free. free.items ≡ gaps 0 end runs.now) }
{
    let mut free = Vec::with_capacity(alloc, runs.len() + 1)?;
    let mut at = 0;
    for run in runs {
        add_gap(&mut free, at, run.first)?;
        at = run.first + run.count;
    }
    add_gap(&mut free, at, end)?;
    Ok(free)
}

// Adds the extents from one up to another, where there are any.
fn add_gap(free: &mut Vec<ExtentRun>, from: u64, to: u64) -> Result<(), AllocError>
    ensures { OnOk result (free.new.items ≡ free.old.items ++ gap from to) }
{
    if from < to {
        free.push(ExtentRun {
            first: from,
            count: to - from,
        })?;
    }
    Ok(())
}
