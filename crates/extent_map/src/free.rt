//! Free extents.
ghost use Rattle.std.specs.Prelude.{◌≡◌, ◌<◌, length, sum_by, List, IfOk};
ghost use Rattle.extent_map.specs.declared.extent_run.ExtentRun.{ExtentRun as RunOf};
ghost use Rattle.extent_map.specs.Covered.{lvs_on};
ghost use Rattle.extent_map.specs.FreeCount.{free_extents};
ghost use Rattle.extent_map.specs.FreeRuns.{AreFreeRuns};
ghost use Rattle.volume_rules.specs.Rules.{IsAccepted};

use crate::ExtentRuns;
use crate::gap_runs::gaps_between;
use crate::leg_runs::{covered_there, runs_there};
use meta_model::{ExtentSpan, Group};
use std::alloc::{AllocError, Global};
use volume_rules::sort_runs;

/// The longest runs of free extents of the physical volume with this number, in order.
///
/// # Errors
///
/// Where memory is wanting.
pub fn free_runs(alloc: Global, group: &Group, pv: u32) -> Result<ExtentRuns, AllocError>
    requires accepted { IsAccepted group.now }
    requires stands { pv < length group.now.pvs }
    ensures { IfOk result (AreFreeRuns group.now pv) }
{
    let mut runs = runs_there(alloc, &group.lvs, pv)?;
    free_beside(alloc, group, pv, &mut runs)
}

// The same beside the runs of the legs on the volume, which are put in order.
pub(crate) fn free_beside(
    alloc: Global,
    group: &Group,
    pv: u32,
    runs: &mut [ExtentSpan],
) -> Result<ExtentRuns, AllocError>
    requires accepted { IsAccepted group.now }
    requires stands { pv < length group.now.pvs }
    requires runs { runs.old ≡ lvs_on pv group.now.lvs }
    ensures { IfOk result (AreFreeRuns group.now pv) }
{
    let (_, volume) = group.pvs.get(pv as usize);
    sort_runs(runs);
    let free = gaps_between(alloc, runs, volume.pe_count)?;
    Ok(ExtentRuns::from_vec(free))
}

/// How many extents of the physical volume with this number are free. It takes no memory.
pub fn free_count(group: &Group, pv: u32) -> u64
    requires accepted { IsAccepted group.now }
    requires stands { pv < length group.now.pvs }
    ensures runs { (runs : List RunOf) × AreFreeRuns group.now pv runs × (result ≡ sum_by (λ (run : RunOf). run.count) runs) }
    ensures count { result ≡ free_extents group.now pv }
{
    let (_, volume) = group.pvs.get(pv as usize);
    volume.pe_count - covered_there(&group.lvs, pv)
}
