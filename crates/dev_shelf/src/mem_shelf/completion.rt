//! How operations complete.
ghost use Rattle.std.specs.Prelude.{◌≡◌, ◌≤◌, ◌<◌, ◌+◌, ◌==◌, ◌&&◌, ℕ, [], ◌∷◌, length, replicate, slice_index, true, nat_le, nat_lt, if◌then◌else◌, IsTrue, Contains};
ghost use Rattle.sector_base.specs.Spans.{covers};
ghost use Rattle.disk_model.specs.Steps.{Completed, now_after, value_at};
ghost use Rattle.disk_model.specs.Operations.{Fills, Lies, work_of};
ghost use Rattle.disk_model.specs.Calls.{Completes};
ghost use Rattle.dev_shelf.specs.Plan.{FailsAsPlanned, failure_of};
ghost use Rattle.dev_shelf.specs.DiskRow.{image_of, lengths_of, state_of};
ghost use Rattle.dev_shelf.specs.DiskRowInvariant.{IsGood, ReadsImage, fresh_of};

use super::disk_row::DiskRow;
use super::recorded::RecordedStep;
use crate::Fail;
use disk_model::{Done, Op};
use op_queue::Waiting;
use sector_base::{Sectors, Span};

impl DiskRow {
    /// Completes the operation at this place of those in flight, and records that.
    pub fn complete(&mut self, at: usize) -> Done
        requires good { IsGood self.old }
        requires at { at < length (state_of self.old).in_flight }
        ensures good { IsGood self.new }
        ensures completes { Completes (state_of self.old) result (state_of self.new) }
        ensures which { result.tag ≡ slice_index (state_of self.old).ready at }
        ensures ready { Contains (state_of self.old).ready result.tag }
        ensures fails { FailsAsPlanned (state_of self.old) self.old.fails.items result (state_of self.new) }
        ensures plan { self.new.fails.items ≡ self.old.fails.items }
    {
        let Waiting { tag, op } = self.queue.take(at);
        let recorded = self.in_flight.remove(at);
        let failure = planned_failure(&self.fails, tag);
        let well = failure.is_none();
        let fresh = failure.unwrap_or(0);
        let op = carry_out(&mut self.current, op, well, fresh);
        self.steps
            .push_reserved(RecordedStep::Ended(tag, recorded.work, well, fresh));
        self.queue.complete(tag, op, well)
    }
}

// With how many new sectors the operation is to fail, if it is.
fn planned_failure(fails: &Vec<Fail>, tag: u64) -> Option<u32>
    ensures { result ≡ failure_of fails.now.items tag }
{
    for fail in fails {
        if fail.tag == tag {
            return Some(fail.fresh);
        }
    }
    None
}

// Carries the operation out.
fn carry_out(disks: &mut Vec<Sectors>, op: Op, well: bool, fresh: u32) -> Op
    requires lies { Lies (lengths_of disks.old.items) op }
    ensures work { work_of result ≡ work_of op }
    ensures lies { Lies (lengths_of disks.old.items) result }
    ensures shape { lengths_of disks.new.items ≡ lengths_of disks.old.items }
    ensures now { (pv s : ℕ) → image_of disks.new.items pv s ≡ now_after (image_of disks.old.items) (Completed 0 (work_of op) well (replicate fresh true) ∷ []) pv s }
    ensures read { ReadsImage (image_of disks.old.items) result well }
{
    match op {
        Op::Read(span, buffer) => {
            let mut buffer = buffer;
            if well {
                read_from(disks, &span, &mut buffer);
            }
            Op::Read(span, buffer)
        }
        Op::Write(span, sectors) => {
            let count = fresh_count(&span, well, fresh);
            write_to(disks, &span, &sectors, count);
            Op::Write(span, sectors)
        }
        Op::Flush(pv) => Op::Flush(pv),
    }
}

// Fills the buffer with the sectors of the span.
fn read_from(disks: &Vec<Sectors>, span: &Span, buffer: &mut Sectors)
    requires fills { Fills (lengths_of disks.now.items) span.now buffer.old }
    ensures len { length buffer.new ≡ length buffer.old }
    ensures read { (pv s : ℕ) → IsTrue (covers span.now pv s) → value_at span.now buffer.new s ≡ image_of disks.now.items pv s }
{
    buffer.fill_from(&disks[span.pv as usize], span.first as usize);
}

// How many sectors of a write are new.
fn fresh_count(span: &Span, well: bool, fresh: u32) -> u32
    ensures { result ≡ fresh_of span.now.count well fresh }
{
    if well {
        span.count
    } else {
        fresh.min(span.count)
    }
}

// Writes so many sectors, the first ones, to the beginning of the span.
fn write_to(disks: &mut Vec<Sectors>, span: &Span, sectors: &Sectors, count: u32)
    requires fills { Fills (lengths_of disks.old.items) span.now sectors.now }
    requires count { count ≤ span.now.count }
    ensures shape { lengths_of disks.new.items ≡ lengths_of disks.old.items }
    ensures image { (pv s : ℕ) → image_of disks.new.items pv s ≡
        (if (span.now.pv == pv) && nat_le span.now.first s && nat_lt s (span.now.first + count) then value_at span.now sectors.now s else image_of disks.old.items pv s) }
{
    let disk = &mut disks[span.pv as usize];
    disk.copy_in(span.first as usize, sectors, count as usize);
}
