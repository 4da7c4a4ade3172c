//! One operation at a time.
ghost use Rattle.std.specs.Prelude.{◌≡◌, ◌≤◌, ◌<◌, ℕ, [], ◌∷◌, length, slice_index_or, IsTrue, IfOk, IfSome, MatchResult, is_ok, if◌then◌else◌};
ghost use Rattle.sector_base.specs.Spans.{covers};
ghost use Rattle.disk_model.specs.declared.ops.Done.{Done as DoneRecord};
ghost use Rattle.disk_model.specs.CarriesOut.{CarriesOut};
ghost use Rattle.disk_model.specs.Faults.{HasSameFaults, IsLastFault};
ghost use Rattle.disk_model.specs.Idle.{SpendsAtMost};
ghost use Rattle.disk_model.specs.Operations.{Lies, sectors_of};
ghost use Rattle.disk_model.specs.Puts.{IsPutFault, PutsAllTold};
ghost use Rattle.disk_model.specs.Since.{KeepsSectorsTold, ReadsTold};
ghost use Rattle.disk_model.specs.Steps.{Flushing, Reading, now_after, value_at};

use crate::{DiskFault, Done, Op, Shelf};
use sector_base::{Sectors, Span};

/// Carries one operation out, where nothing else is in flight.
pub fn run_one<S: Shelf>(shelf: &mut S, op: Op) -> Done
    requires idle { (S.state shelf.old).in_flight ≡ [] }
    requires lies { Lies (S.state shelf.old).sizes op }
    requires ops { 0 < (S.state shelf.old).spare_ops }
    requires sectors { sectors_of op ≤ (S.state shelf.old).spare_sectors }
    ensures { CarriesOut (S.state shelf.old) op result (S.state shelf.new) }
{
    let _tag = shelf.submit(op);
    match shelf.settle() {
        Some(done) => done,
        None => unreachable!(),
    }
}

/// Reads the span into the buffer, where nothing else is in flight. An error comes exactly where the read failed, which
/// was then the last step.
pub fn read_span<S: Shelf>(shelf: &mut S, span: Span, buffer: Sectors) -> Result<Sectors, DiskFault>
    requires idle { (S.state shelf.old).in_flight ≡ [] }
    requires lies { Lies (S.state shelf.old).sizes (Op.Read span buffer) }
    requires ops { 0 < (S.state shelf.old).spare_ops }
    requires sectors { span.count ≤ (S.state shelf.old).spare_sectors }
    ensures carried_out { (done : DoneRecord) × CarriesOut (S.state shelf.old) (Op.Read span buffer) done (S.state shelf.new) × (done.well ≡ is_ok result) }
    ensures spends { SpendsAtMost (S.state shelf.old) 1 span.count (S.state shelf.new) }
    ensures fault { MatchResult result (λ _. HasSameFaults (S.state shelf.old) (S.state shelf.new))
        (λ fault. IsLastFault (S.state shelf.old) (S.state shelf.new) fault.pv (Reading span)) }
    ensures reads { ReadsTold (S.state shelf.old).told (span ∷ []) (S.state shelf.new).told }
    ensures len { IfOk result (λ sectors. length sectors ≡ span.count) }
    ensures read { IfOk result (λ sectors. IfSome (S.state shelf.old).told (λ told.
        (pv sector : ℕ) → IsTrue (covers span pv sector) → value_at span sectors sector ≡ now_after told.opened told.steps pv sector)) }
{
    let Done { op, well, .. } = run_one(shelf, Op::Read(span, buffer));
    match op {
        Op::Read(_, sectors) if well => Ok(sectors),
        _ => Err(DiskFault { pv: span.pv }),
    }
}

/// Flushes the disk, where nothing else is in flight. An error comes exactly where the flush failed, which was then the
/// last step.
pub fn flush<S: Shelf>(shelf: &mut S, disk: u32) -> Result<(), DiskFault>
    requires idle { (S.state shelf.old).in_flight ≡ [] }
    requires disk { disk < length (S.state shelf.old).sizes }
    requires ops { 0 < (S.state shelf.old).spare_ops }
    ensures carried_out { (done : DoneRecord) × CarriesOut (S.state shelf.old) (Op.Flush disk) done (S.state shelf.new) × (done.well ≡ is_ok result) }
    ensures spends { SpendsAtMost (S.state shelf.old) 1 0 (S.state shelf.new) }
    ensures fault { MatchResult result (λ _. HasSameFaults (S.state shelf.old) (S.state shelf.new))
        (λ fault. IsLastFault (S.state shelf.old) (S.state shelf.new) fault.pv (Flushing disk)) }
    ensures keeps { KeepsSectorsTold (S.state shelf.old).told (if is_ok result then disk ∷ [] else []) (S.state shelf.new).told }
{
    if run_one(shelf, Op::Flush(disk)).well {
        Ok(())
    } else {
        Err(DiskFault { pv: disk })
    }
}

/// Writes the one sector of the disk and flushes the disk, where nothing else is in flight. An error comes exactly where
/// one of the two failed, which was then the last step: the flush isn't tried after a write that failed.
pub fn put_sector<S: Shelf>(
    shelf: &mut S,
    disk: u32,
    sector: u64,
    contents: Sectors,
) -> Result<(), DiskFault>
    requires idle { (S.state shelf.old).in_flight ≡ [] }
    requires disk { disk < length (S.state shelf.old).sizes }
    requires within { sector < slice_index_or (S.state shelf.old).sizes disk 0 }
    requires one { length contents ≡ 1 }
    requires ops { 2 ≤ (S.state shelf.old).spare_ops }
    requires sectors { 1 ≤ (S.state shelf.old).spare_sectors }
    ensures spends { SpendsAtMost (S.state shelf.old) 2 1 (S.state shelf.new) }
    ensures fault { MatchResult result (λ _. HasSameFaults (S.state shelf.old) (S.state shelf.new))
        (λ fault. IsPutFault (S.state shelf.old) (S.state shelf.new) (record { pv = disk; sector = sector; value = slice_index_or contents 0 [] }) fault.pv) }
    ensures puts { PutsAllTold (S.state shelf.old).told (record { pv = disk; sector = sector; value = slice_index_or contents 0 [] } ∷ []) (is_ok result) (S.state shelf.new).told }
{
    let span = Span {
        pv: disk,
        first: sector,
        count: 1,
    };
    if !run_one(shelf, Op::Write(span, contents)).well {
        return Err(DiskFault { pv: disk });
    }
    flush(shelf, disk)
}
