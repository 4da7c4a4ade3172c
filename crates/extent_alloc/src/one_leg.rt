//! One leg.
ghost use Rattle.std.specs.Prelude.{◌≡◌, ◌≤◌, ◌<◌, All, Contains, IfOk, MatchOption, MatchResult, None};
ghost use Rattle.volume_rules.specs.Rules.{IsAccepted};
ghost use Rattle.extent_alloc.specs.Few.{AreFew};
ghost use Rattle.extent_alloc.specs.Free as specs;
ghost use Rattle.extent_alloc.specs.Giving.{IsGiven, IsRequest};
ghost use Rattle.extent_alloc.specs.Refusals.{IsReason, one_leg_refusal};
ghost use Rattle.extent_alloc.specs.Taking.{IsTaken};
ghost use Rattle.extent_alloc.specs.Usable.{usable_pvs};
ghost use Rattle.extent_alloc.specs.declared.part.PvRun.{PvRun as Run};

use crate::free::free_on;
use crate::laying::{lay, whole};
use crate::order::sort_longest_first;
use crate::part::PvRun;
use crate::room::{longest, total};
use crate::{AllocRefusal, Part, Request};
use extent_map::all_free_runs;
use meta_model::Group;
use std::alloc::{AllocError, Global};

// The parts of one leg, on the free runs of these volumes.
pub(crate) fn one_leg(
    alloc: Global,
    group: &Group,
    want: &Request,
    pvs: &[u32],
) -> Result<Vec<Part>, AllocRefusal>
    requires accepted { IsAccepted group.now }
    requires request { IsRequest want.now }
    requires legs { want.now.legs ≡ 1 }
    requires pvs { pvs.now ≡ usable_pvs group.now want.now }
    ensures { MatchResult result
        (λ parts. IsGiven group.now want.now parts.items × AreFew group.now want.now parts.items × (one_leg_refusal want.now (specs.free_on group.now pvs.now) ≡ None))
        (IsReason (one_leg_refusal want.now (specs.free_on group.now pvs.now))) }
{
    let all = all_free_runs(alloc, group)?;
    let runs = free_on(alloc, &all, pvs)?;
    let free = total(&runs);
    let need = want.extents;
    if free < need {
        return Err(AllocRefusal::NoSpace { need, free });
    }
    let longest = longest(&runs);
    if want.contiguous && longest < need {
        return Err(AllocRefusal::NoRun { need, longest });
    }
    let mut taken = to_take(alloc, runs, need)?;
    let parts = whole(alloc, need)?;
    Ok(lay(alloc, &parts, &mut taken)?)
}

// The first run that is long enough alone, and where there is none all of them, the longest first.
fn to_take(alloc: Global, mut runs: Vec<PvRun>, extents: u64) -> Result<Vec<PvRun>, AllocError>
    ensures { IfOk result (λ taken. IsTaken extents runs.items taken.items) }
{
    if let Some(run) = first_long(&runs, extents) {
        return Vec::from_slice(alloc, &[run]);
    }
    sort_longest_first(&mut runs)?;
    Ok(runs)
}

// The first of them that is.
fn first_long(runs: &[PvRun], extents: u64) -> Option<PvRun>
    ensures { MatchOption result (All (λ (run : Run). run.count < extents) runs.now) (λ run. Contains runs.now run × (extents ≤ run.count)) }
{
    for run in runs {
        if run.count >= extents {
            return Some(*run);
        }
    }
    None
}
