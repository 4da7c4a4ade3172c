//! A batch that is carried out where nothing else is in flight.
ghost use Rattle.std.specs.Prelude.{◌≡◌, ◌≤◌, ◌<◌, ◌+◌, [], length, sum_by, is_ok, All, MatchResult};
ghost use Rattle.disk_model.specs.Calls.{Completes};
ghost use Rattle.disk_model.specs.Faults.{HasSameFaults};
ghost use Rattle.disk_model.specs.Idle.{SpendsAtMost};
ghost use Rattle.disk_model.specs.Since.{BetweenRecords};
ghost use Rattle.disk_model.specs.State.{State};
ghost use Rattle.disk_batch.specs.Writes.{LieIn, span_count};
ghost use Rattle.disk_batch.specs.Batches.{writes_of, disks_of};
ghost use Rattle.disk_batch.specs.WriteAll.{WritesAll};
ghost use Rattle.disk_batch.specs.Alone.{IsOn, IsWithin, Turns};

use crate::{Batch, BatchStep};
use disk_model::{Done, Shelf};

/// Carries the batch out, where nothing else is in flight: submits all its writes, a bounded number of blocks at a time,
/// and, once every one has completed well, a flush of each of its disks. The error is the disk of the last operation that
/// failed. It comes once all that was submitted has completed.
pub fn write_all<S: Shelf>(batch: Batch, shelf: &mut S) -> Result<(), u32>
    requires idle { (S.state shelf.old).in_flight ≡ [] }
    requires writes { 0 < length (writes_of batch) }
    requires lie { LieIn (S.state shelf.old).sizes (writes_of batch) }
    requires disks { All (λ pv. pv < length (S.state shelf.old).sizes) (disks_of batch) }
    requires ops { length (writes_of batch) + length (disks_of batch) ≤ (S.state shelf.old).spare_ops }
    requires sectors { sum_by span_count (writes_of batch) ≤ (S.state shelf.old).spare_sectors }
    ensures spends { SpendsAtMost (S.state shelf.old) (length (writes_of batch) + length (disks_of batch)) (sum_by span_count (writes_of batch)) (S.state shelf.new) }
    ensures fault { MatchResult result (λ _. HasSameFaults (S.state shelf.old) (S.state shelf.new)) (λ pv. (S.state shelf.old).faults pv < (S.state shelf.new).faults pv) }
    ensures told { BetweenRecords (λ old new. WritesAll old (writes_of batch) (disks_of batch) (is_ok result) new) (S.state shelf.old).told (S.state shelf.new).told }
{
    let mut step = BatchStep::Going(batch.start(shelf));
    while let Some(done) = shelf.settle() {
        step = turn(step, done, shelf);
    }
    match step {
        BatchStep::Well => Ok(()),
        BatchStep::Lost(pv) => Err(pv),
        BatchStep::Going(_) => unreachable!(),
    }
}

// Takes a completion.
fn turn<S: Shelf>(step: BatchStep, done: Done, shelf: &mut S) -> BatchStep
    requires on { (before : State) × IsOn step before × IsWithin before step × Completes before done (S.state shelf.old) }
    ensures within { IsWithin (S.state shelf.new) result }
    ensures turns { Turns (S.state shelf.old) step done result (S.state shelf.new) }
{
    match step {
        BatchStep::Going(batching) => batching.on_done(done, shelf),
        BatchStep::Well | BatchStep::Lost(_) => unreachable!(),
    }
}
