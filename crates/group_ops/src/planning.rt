//! Judging a line.
ghost use Rattle.std.specs.Prelude.{◌≡◌, ◌<◌, ◌^◌, [], IfOk, IsSomeAnd, false, unwrap_or};
ghost use Rattle.lvm_id.specs.LvmId.{IsId};
ghost use Rattle.group_plan.specs.State.{IsState};
ghost use Rattle.group_plan.specs.Zeroing.{AreWithin};
ghost use Rattle.lv_plans.specs.Allocating.{PlansWith};
ghost use Rattle.group_ops.specs.Planning.{IsBackupOf, IsPlanned, asks_of, change_of, rows_of, zeroes};

use command_table::Command;
use group_plan::{Change, GroupState, PlanRefusal};
use lv_plans::{plan_lvcreate, plan_lvextend, plan_lvreduce, plan_lvremove, plan_lvrename};
use lvm_id::LvmId;
use lvm_script::Line;
use pv_plans::plan_pvcreate;
use std::alloc::Global;
use vg_plans::{
    plan_vgcfgrestore, plan_vgcreate, plan_vgextend, plan_vgreduce, plan_vgremove, plan_vgrename,
};

/// What the line changes at this time, in seconds since 1970, by lvm2's rules for its command. Sizes and extents are counted
/// in sectors of 512 bytes, but for a header's numbers, which are bytes.
///
/// # Errors
///
/// The first refusal of its command, in the order of the rows, exactly where one holds; `NoMemory` where memory is wanting.
pub fn plan(alloc: Global, state: &GroupState, line: &Line, now: u64) -> Result<Change, PlanRefusal>
    requires state { IsState state.now }
    requires planned { IsPlanned line.now.id line.now.command }
    requires backup { IsBackupOf line.now.command state.now.backup }
    requires time { now < 2 ^ 48 }
    ensures plans { PlansWith (asks_of state.now line.now) (rows_of state.now line.now now) (change_of state.now line.now now) result }
    ensures zeros { IfOk result (λ change. AreWithin state.now.disks change.zero) }
{
    match &line.command {
        Command::Lvcreate(new) => plan_lvcreate(alloc, state, &drawn(line.id), new, now),
        _ => plan_others(alloc, state, line, now),
    }
}

// The same of a line that creates no volume, and so zeroes nothing.
fn plan_others(
    alloc: Global,
    state: &GroupState,
    line: &Line,
    now: u64,
) -> Result<Change, PlanRefusal>
    requires state { IsState state.now }
    requires planned { IsPlanned line.now.id line.now.command }
    requires others { zeroes line.now.command ≡ false }
    requires backup { IsBackupOf line.now.command state.now.backup }
    requires time { now < 2 ^ 48 }
    ensures { PlansWith (asks_of state.now line.now) (rows_of state.now line.now now) (change_of state.now line.now now) result }
{
    match &line.command {
        Command::Pvcreate {
            pv,
            metadata_copies,
        } => plan_pvcreate(alloc, state, &drawn(line.id), pv, *metadata_copies),
        Command::Vgcreate {
            vg,
            extent_size,
            pvs,
        } => plan_vgcreate(
            alloc,
            state,
            &drawn(line.id),
            vg,
            *extent_size,
            pvs.as_slice(),
            now,
        ),
        Command::Vgextend { vg, pvs } => plan_vgextend(alloc, state, vg, pvs.as_slice(), now),
        Command::Vgreduce { vg, pv } => plan_vgreduce(alloc, state, vg, pv, now),
        Command::Vgremove { vg } => plan_vgremove(alloc, state, vg),
        Command::Vgrename { vg, new } => plan_vgrename(alloc, state, vg, new, now),
        Command::Vgcfgrestore { vg, .. } => plan_vgcfgrestore(alloc, state, vg, now),
        Command::Lvextend { path, growth, pvs } => {
            plan_lvextend(alloc, state, path, *growth, pvs.as_slice(), now)
        }
        Command::Lvreduce { path, amount } => plan_lvreduce(alloc, state, path, *amount, now),
        Command::Lvremove { path } => plan_lvremove(alloc, state, path, now),
        Command::Lvrename { vg, old, new } => plan_lvrename(alloc, state, vg, old, new, now),
        _ => unreachable!(),
    }
}

// The id that the line has drawn.
fn drawn(id: Option<LvmId>) -> LvmId
    requires { IsSomeAnd id IsId }
    ensures value { result ≡ unwrap_or id [] }
    ensures valid { IsId result }
{
    match id {
        Some(id) => id,
        None => unreachable!(),
    }
}
