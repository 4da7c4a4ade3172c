//! The free extents of all physical volumes.
ghost use Rattle.std.specs.Prelude.{IfOk};
ghost use Rattle.extent_map.specs.AllFree.{AreAllFree};
ghost use Rattle.volume_rules.specs.Rules.{IsAccepted};

use crate::FreeRuns;
use crate::by_volume::runs_by_volume;
use crate::free::free_beside;
use meta_model::Group;
use std::alloc::{AllocError, Global};

/// The longest runs of free extents of each physical volume, in the order of the text, by one walk over the legs.
///
/// # Errors
///
/// Where memory is wanting.
pub fn all_free_runs(alloc: Global, group: &Group) -> Result<FreeRuns, AllocError>
    requires { IsAccepted group.now }
    ensures { IfOk result (AreAllFree group.now) }
{
    let count = group.pvs.len();
    let mut buckets = runs_by_volume(alloc, &group.lvs, count)?;
    let mut all = Vec::with_capacity(alloc, count)?;
    for pv in 0..count {
        all.push(free_beside(alloc, group, pv as u32, &mut buckets[pv])?)?;
    }
    Ok(FreeRuns::from_vec(all))
}
