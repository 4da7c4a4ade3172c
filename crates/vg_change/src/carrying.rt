//! A line is carried out.
ghost use Rattle.std.specs.Prelude.{◌≡◌, ◌≤◌, ◌<◌, ◌+◌, ◌^◌, [], is_ok, map, sum_by, All, MatchResult};
ghost use Rattle.disk_model.specs.Faults.{HasSameFaults};
ghost use Rattle.disk_model.specs.Idle.{IsIdleAgain};
ghost use Rattle.disk_model.specs.Since.{BetweenRecords};
ghost use Rattle.disk_batch.specs.Batches.{writes_of};
ghost use Rattle.disk_batch.specs.InTurn.{CanRun, WritesInTurn, ops_of, sectors_of};
ghost use Rattle.group_plan.specs.State.{IsState};
ghost use Rattle.group_ops.specs.Planning.{IsBackupOf, IsPlanned};
ghost use Rattle.change_batches.specs.Sound.{sizes_of};
ghost use Rattle.vg_change.specs.CarryingOut.{IsCarried, IsMade, IsUnclearedBy, WritesBoth, clear_fault, made_at};

use crate::ChangeFault;
use change_batches::{batches_of, clears_of, zeros_of};
use disk_batch::{Batch, reserve_lists, write_in_turn};
use disk_model::Shelf;
use group_ops::plan;
use group_plan::GroupState;
use lvm_script::Line;
use std::alloc::Global;

/// Carries out what the line changes at this time, on the disks of this state, where nothing else is in flight: first its
/// zeros; once these last its batches; and behind them those that clear the disks which the group lets go. All memory is taken
/// before anything is written. It is the moment at which the change was made, counted in submissions and completions.
///
/// # Errors
///
/// `Refused` with the first refusal that holds, exactly where one does; `Failed` only where an operation failed on that disk
/// in this call, and `Uncleared` where it did once a group was committed; `NoMemory` where memory is wanting.
pub fn carry_out<S: Shelf>(
    alloc: Global,
    shelf: &mut S,
    state: &GroupState,
    line: &Line,
    now: u64,
) -> Result<u64, ChangeFault>
    requires state { IsState state.now }
    requires planned { IsPlanned line.now.id line.now.command }
    requires backup { IsBackupOf line.now.command state.now.backup }
    requires time { now < 2 ^ 48 }
    requires disks { (S.state shelf.old).sizes ≡ sizes_of state.now.disks }
    requires idle { (S.state shelf.old).in_flight ≡ [] }
    ensures again { IsIdleAgain (S.state shelf.old) (S.state shelf.new) }
    ensures carried { IsCarried state.now line.now now (S.state shelf.old) result (S.state shelf.new) }
{
    let change = plan(alloc, state, line, now)?;
    let zeros = zeros_of(alloc, &change)?;
    let batches = batches_of(alloc, &state.areas, &change, now)?;
    let clears = clears_of(alloc, state, &change)?;
    reserve_lists(&zeros, &batches, &clears, shelf)?;
    match write_both(zeros, batches, shelf) {
        Ok(()) => clear(clears, change.group.is_some(), shelf),
        Err(pv) => Err(ChangeFault::Failed(pv)),
    }
}

// Carries out the zeros and, where that went well, the batches. It is the disk of an operation that failed, if one did.
fn write_both<S: Shelf>(zeros: Vec<Batch>, batches: Vec<Batch>, shelf: &mut S) -> Result<(), u32>
    requires idle { (S.state shelf.old).in_flight ≡ [] }
    requires zeros_can_run { All (CanRun (S.state shelf.old).sizes) zeros.items }
    requires can_run { All (CanRun (S.state shelf.old).sizes) batches.items }
    requires ops { sum_by ops_of zeros.items + sum_by ops_of batches.items ≤ (S.state shelf.old).spare_ops }
    requires sectors { sum_by sectors_of zeros.items + sum_by sectors_of batches.items ≤ (S.state shelf.old).spare_sectors }
    ensures again { IsIdleAgain (S.state shelf.old) (S.state shelf.new) }
    ensures ops { (S.state shelf.old).spare_ops ≤ (S.state shelf.new).spare_ops + sum_by ops_of zeros.items + sum_by ops_of batches.items }
    ensures sectors { (S.state shelf.old).spare_sectors ≤ (S.state shelf.new).spare_sectors + sum_by sectors_of zeros.items + sum_by sectors_of batches.items }
    ensures fault { MatchResult result (λ _. HasSameFaults (S.state shelf.old) (S.state shelf.new)) (λ pv. (S.state shelf.old).faults pv < (S.state shelf.new).faults pv) }
    ensures told { BetweenRecords (WritesBoth (map writes_of zeros.items) (map writes_of batches.items) (is_ok result)) (S.state shelf.old).told (S.state shelf.new).told }
{
    if let Err(pv) = write_in_turn(zeros, shelf) {
        return Err(pv);
    }
    write_in_turn(batches, shelf)
}

// Clears the disks which the group lets go, where a group was committed before or none is. It is when the change was made.
fn clear<S: Shelf>(clears: Vec<Batch>, commits: bool, shelf: &mut S) -> Result<u64, ChangeFault>
    requires idle { (S.state shelf.old).in_flight ≡ [] }
    requires can_run { All (CanRun (S.state shelf.old).sizes) clears.items }
    requires ops { sum_by ops_of clears.items ≤ (S.state shelf.old).spare_ops }
    requires sectors { sum_by sectors_of clears.items ≤ (S.state shelf.old).spare_sectors }
    ensures again { IsIdleAgain (S.state shelf.old) (S.state shelf.new) }
    ensures cause { MatchResult result (IsMade commits (S.state shelf.old) (S.state shelf.new)) (IsUnclearedBy commits (S.state shelf.old) (S.state shelf.new)) }
    ensures told { BetweenRecords (λ old new. WritesInTurn old (map writes_of clears.items) (is_ok result) new) (S.state shelf.old).told (S.state shelf.new).told }
{
    let committed = shelf.steps();
    match write_in_turn(clears, shelf) {
        Ok(()) => Ok(made_at(commits, committed, shelf.steps())),
        Err(pv) => Err(clear_fault(commits, pv, committed)),
    }
}

// The moment at which the change was made: where a group is committed that at which it was, and else the end.
fn made_at(commits: bool, committed: u64, ended: u64) -> u64
    ensures { result ≡ made_at commits committed ended }
{
    if commits { committed } else { ended }
}

// Why disks weren't cleared.
fn clear_fault(commits: bool, pv: u32, committed: u64) -> ChangeFault
    ensures { result ≡ clear_fault commits pv committed }
{
    if commits {
        ChangeFault::Uncleared {
            pv,
            made: committed,
        }
    } else {
        ChangeFault::Failed(pv)
    }
}
