//! The free runs of some of the physical volumes.
ghost use Rattle.std.specs.Prelude.{◌≡◌, ◌++◌, ◌<◌, All, IfOk, OnOk, length};
ghost use Rattle.std.specs.List.{flat_map};
ghost use Rattle.extent_alloc.specs.AllRuns.{runs_at};
ghost use Rattle.extent_alloc.specs.Free.{runs_on};

use crate::part::PvRun;
use extent_map::{ExtentRun, FreeRuns};
use std::alloc::{AllocError, Global};

// The free runs of these volumes, in their order.
pub(crate) fn free_on(alloc: Global, all: &FreeRuns, pvs: &[u32]) -> Result<Vec<PvRun>, AllocError>
    requires { All (λ pv. pv < length all.now) pvs.now }
    ensures { IfOk result (λ runs. runs.items ≡ flat_map (runs_at all.now) pvs.now) }
{
    let mut runs = Vec::new(alloc);
    for pv in pvs {
        add_runs(&mut runs, *pv, all.get(*pv as usize).as_slice())?;
    }
    Ok(runs)
}

// Those of one volume.
pub(crate) fn free_at(alloc: Global, all: &FreeRuns, pv: u32) -> Result<Vec<PvRun>, AllocError>
    requires { pv < length all.now }
    ensures { IfOk result (λ runs. runs.items ≡ runs_at all.now pv) }
{
    let mut runs = Vec::new(alloc);
    add_runs(&mut runs, pv, all.get(pv as usize).as_slice())?;
    Ok(runs)
}

fn add_runs(runs: &mut Vec<PvRun>, pv: u32, free: &[ExtentRun]) -> Result<(), AllocError>
    ensures { OnOk result (runs.new.items ≡ runs.old.items ++ runs_on pv free.now) }
{
    for run in free {
        runs.push(PvRun {
            pv,
            first: run.first,
            count: run.count,
        })?;
    }
    Ok(())
}
