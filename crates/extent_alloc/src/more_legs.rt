//! Several legs.
ghost use Rattle.std.specs.Prelude.{◌≡◌, ◌<◌, ◌^◌, All, IfOk, List, MatchResult, None, filter, length};
ghost use Rattle.volume_rules.specs.Rules.{IsAccepted};
ghost use Rattle.extent_alloc.specs.AllRuns.{AreTakenAt, has_room_at, runs_at};
ghost use Rattle.extent_alloc.specs.Few.{AreFew, has_room};
ghost use Rattle.extent_alloc.specs.Free.{total};
ghost use Rattle.extent_alloc.specs.Giving.{IsGiven, IsRequest};
ghost use Rattle.extent_alloc.specs.Laying.{RunEnds, whole_part};
ghost use Rattle.extent_alloc.specs.Refusals.{IsReason, more_legs_refusal};
ghost use Rattle.extent_alloc.specs.Taking.{laid_all};
ghost use Rattle.extent_alloc.specs.Usable.{usable_pvs};
ghost use Rattle.extent_alloc.specs.declared.part.PvRun.{PvRun as Run};

use crate::free::free_at;
use crate::laying::{lay, whole};
use crate::order::sort_longest_first;
use crate::room::room;
use crate::{AllocRefusal, Part, Request};
use extent_map::{FreeRuns, all_free_runs};
use meta_model::Group;
use std::alloc::{AllocError, Global};

// The parts of several legs, on the first of these volumes that have room.
pub(crate) fn more_legs(
    alloc: Global,
    group: &Group,
    want: &Request,
    pvs: &[u32],
) -> Result<Vec<Part>, AllocRefusal>
    requires accepted { IsAccepted group.now }
    requires request { IsRequest want.now }
    requires legs { 1 < want.now.legs }
    requires pvs { pvs.now ≡ usable_pvs group.now want.now }
    ensures { MatchResult result
        (λ parts. IsGiven group.now want.now parts.items × AreFew group.now want.now parts.items × (more_legs_refusal want.now (filter (has_room group.now want.now) pvs.now) ≡ None))
        (IsReason (more_legs_refusal want.now (filter (has_room group.now want.now) pvs.now))) }
{
    let all = all_free_runs(alloc, group)?;
    let pvs = with_room(alloc, &all, want, pvs)?;
    if pvs.len() < want.legs as usize {
        return Err(AllocRefusal::TooFewPvs {
            need: want.legs,
            fit: pvs.len() as u32,
        });
    }
    let pvs = &pvs[..want.legs as usize];
    Ok(on_each(alloc, &all, want.extents, pvs)?)
}

// Those of the volumes that have room for a leg.
fn with_room(
    alloc: Global,
    all: &FreeRuns,
    want: &Request,
    pvs: &[u32],
) -> Result<Vec<u32>, AllocError>
    requires stand { All (λ pv. pv < length all.now) pvs.now }
    requires few { All (λ pv. total (runs_at all.now pv) < 2 ^ 64) pvs.now }
    ensures { IfOk result (λ fit. fit.items ≡ filter (has_room_at all.now want.now) pvs.now) }
{
    let mut fit = Vec::new(alloc);
    for pv in pvs {
        let runs = free_at(alloc, all, *pv)?;
        if want.extents <= room(want, &runs) {
            fit.push(*pv)?;
        }
    }
    Ok(fit)
}

// The parts of a leg of so many extents on each of the volumes, which takes the longest runs first.
fn on_each(
    alloc: Global,
    all: &FreeRuns,
    extents: u64,
    pvs: &[u32],
) -> Result<Vec<Part>, AllocError>
    requires stand { All (λ pv. pv < length all.now) pvs.now }
    requires ends { All (λ pv. All RunEnds (runs_at all.now pv)) pvs.now }
    ensures { IfOk result (λ parts. (legs : List (List Run)) × AreTakenAt all.now pvs.now legs × (parts.items ≡ laid_all (whole_part extents) legs)) }
{
    let mut parts = whole(alloc, extents)?;
    for pv in pvs {
        let mut runs = free_at(alloc, all, *pv)?;
        sort_longest_first(&mut runs)?;
        parts = lay(alloc, &parts, &mut runs)?;
    }
    Ok(parts)
}
