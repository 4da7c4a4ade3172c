//! All disks are flushed.
ghost use Rattle.std.specs.Prelude.{◌≡◌, ◌≤◌, [], length, is_ok, MatchResult};
ghost use Rattle.disk_model.specs.Faults.{HasSameFaults, IsLastFault};
ghost use Rattle.disk_model.specs.Idle.{IsIdleAgain};
ghost use Rattle.disk_model.specs.Since.{BetweenRecords};
ghost use Rattle.disk_model.specs.Steps.{Flushing};
ghost use Rattle.disk_batch.specs.Flushing.{FlushesAll};

use disk_model::{DiskFault, Shelf, flush};

/// Flushes each disk in turn, where nothing else is in flight.
///
/// # Errors
///
/// The disk whose flush failed, exactly where one did, which was then the last step: no later disk is flushed.
pub fn flush_all<S: Shelf>(shelf: &mut S) -> Result<(), DiskFault>
    requires idle { (S.state shelf.old).in_flight ≡ [] }
    requires ops { length (S.state shelf.old).sizes ≤ (S.state shelf.old).spare_ops }
    ensures again { IsIdleAgain (S.state shelf.old) (S.state shelf.new) }
    ensures fault { MatchResult result (λ _. HasSameFaults (S.state shelf.old) (S.state shelf.new))
        (λ fault. IsLastFault (S.state shelf.old) (S.state shelf.new) fault.pv (Flushing fault.pv)) }
    ensures told { BetweenRecords (FlushesAll (length (S.state shelf.old).sizes) (is_ok result)) (S.state shelf.old).told (S.state shelf.new).told }
{
    for pv in 0..shelf.count() {
        flush(shelf, pv)?;
    }
    Ok(())
}
