//! Batches that are carried out one after another.
ghost use Rattle.std.specs.Prelude.{◌≡◌, ◌≤◌, ◌<◌, ◌+◌, ◌-◌, ◌^◌, [], length, map, min, sum_by, is_ok, All, MatchResult, OnErr, OnOk};
ghost use Rattle.disk_model.specs.Calls.{Reserves};
ghost use Rattle.disk_model.specs.Faults.{HasSameFaults};
ghost use Rattle.disk_model.specs.Idle.{SpendsAtMost};
ghost use Rattle.disk_batch.specs.Batches.{writes_of};
ghost use Rattle.disk_batch.specs.InTurn.{CanRun, WritesInTurnTold, WritesLast, ops_of, sectors_of};

use crate::{Batch, write_all};
use disk_model::Shelf;
use std::alloc::AllocError;

/// Makes spare what these batches use up in turn.
///
/// # Errors
///
/// `AllocError` where memory is wanting; then the shelf is as before.
pub fn reserve_all<S: Shelf>(batches: &[Batch], shelf: &mut S) -> Result<(), AllocError>
    ensures err { OnErr result (S.state shelf.new ≡ S.state shelf.old) }
    ensures room { OnOk result (Reserves (S.state shelf.old) (sum_by ops_of batches.now) (sum_by sectors_of batches.now) (S.state shelf.new)) }
{
    let (ops, sectors) = needed_by(batches);
    if ops == u64::MAX || sectors == u64::MAX {
        return Err(AllocError);
    }
    shelf.reserve(ops, sectors)
}

/// Makes spare what the batches of three lists use up in turn.
///
/// # Errors
///
/// `AllocError` where memory is wanting; then the shelf is as before.
pub fn reserve_lists<S: Shelf>(
    first: &[Batch],
    second: &[Batch],
    third: &[Batch],
    shelf: &mut S,
) -> Result<(), AllocError>
    ensures err { OnErr result (S.state shelf.new ≡ S.state shelf.old) }
    ensures room { OnOk result (Reserves (S.state shelf.old) (sum_by ops_of first.now + sum_by ops_of second.now + sum_by ops_of third.now) (sum_by sectors_of first.now + sum_by sectors_of second.now + sum_by sectors_of third.now) (S.state shelf.new)) }
{
    let (first_ops, first_sectors) = needed_by(first);
    let (second_ops, second_sectors) = needed_by(second);
    let (third_ops, third_sectors) = needed_by(third);
    let ops = first_ops
        .saturating_add(second_ops)
        .saturating_add(third_ops);
    let sectors = first_sectors
        .saturating_add(second_sectors)
        .saturating_add(third_sectors);
    if ops == u64::MAX || sectors == u64::MAX {
        return Err(AllocError);
    }
    shelf.reserve(ops, sectors)
}

// How many operations and sectors they use up. A number past 2^64 - 1 is given as that.
fn needed_by(batches: &[Batch]) -> (u64, u64)
    ensures ops { result.0 ≡ min (sum_by ops_of batches.now) (2 ^ 64 - 1) }
    ensures sectors { result.1 ≡ min (sum_by sectors_of batches.now) (2 ^ 64 - 1) }
{
    let mut ops = 0u64;
    let mut sectors = 0u64;
    for batch in batches {
        let needs = batch.needs();
        ops = ops.saturating_add(needs.0);
        sectors = sectors.saturating_add(needs.1);
    }
    (ops, sectors)
}

/// Carries the batches out one after another, where nothing else is in flight: each lasts before the next begins. It is the
/// disk of an operation that failed, if one did, and then no further batch is begun.
pub fn write_in_turn<S: Shelf>(batches: Vec<Batch>, shelf: &mut S) -> Result<(), u32>
    requires idle { (S.state shelf.old).in_flight ≡ [] }
    requires can_run { All (CanRun (S.state shelf.old).sizes) batches.items }
    requires ops { sum_by ops_of batches.items ≤ (S.state shelf.old).spare_ops }
    requires sectors { sum_by sectors_of batches.items ≤ (S.state shelf.old).spare_sectors }
    ensures spends { SpendsAtMost (S.state shelf.old) (sum_by ops_of batches.items) (sum_by sectors_of batches.items) (S.state shelf.new) }
    ensures fault { MatchResult result (λ _. HasSameFaults (S.state shelf.old) (S.state shelf.new)) (λ pv. (S.state shelf.old).faults pv < (S.state shelf.new).faults pv) }
    ensures told { WritesInTurnTold (S.state shelf.old).told (map writes_of batches.items) (is_ok result) (S.state shelf.new).told }
{
    let mut rest = batches;
    rest.reverse();
    while !rest.is_empty() {
        if let Err(pv) = write_last(&mut rest, shelf) {
            return Err(pv);
        }
    }
    Ok(())
}

// Takes the last of the batches off and carries it out.
fn write_last<S: Shelf>(list: &mut Vec<Batch>, shelf: &mut S) -> Result<(), u32>
    requires some { 0 < length list.old.items }
    requires idle { (S.state shelf.old).in_flight ≡ [] }
    requires can_run { All (CanRun (S.state shelf.old).sizes) list.old.items }
    requires ops { sum_by ops_of list.old.items ≤ (S.state shelf.old).spare_ops }
    requires sectors { sum_by sectors_of list.old.items ≤ (S.state shelf.old).spare_sectors }
    ensures last { WritesLast (S.state shelf.old) list.old.items list.new.items (is_ok result) (S.state shelf.new) }
    ensures fault { MatchResult result (λ _. HasSameFaults (S.state shelf.old) (S.state shelf.new)) (λ pv. (S.state shelf.old).faults pv < (S.state shelf.new).faults pv) }
{
    match list.pop() {
        Some(batch) => write_all(batch, shelf),
        None => unreachable!(),
    }
}
