//! How operations get room and are submitted.
ghost use Rattle.std.specs.Prelude.{◌≡◌, ◌≤◌, ◌<◌, ◌+◌, ◌++◌, length, vec_len, vec_capacity, All, OnOk, OnErr};
ghost use Rattle.sector_base.specs.Sectors.{IsSector};
ghost use Rattle.disk_model.specs.Operations.{Lies, sectors_of, work_of};
ghost use Rattle.disk_model.specs.Calls.{Submits, Reserves};
ghost use Rattle.dev_shelf.specs.DiskRow.{state_of, work_at};
ghost use Rattle.dev_shelf.specs.DiskRowInvariant.{IsGood, IsKept};

use super::disk_row::DiskRow;
use super::recorded::{RecordedOp, RecordedStep, RecordedWork};
use disk_model::Op;
use sector_base::{Bytes512, Sectors};
use std::alloc::AllocError;

impl DiskRow {
    /// Makes at least so many operations and sectors spare.
    pub fn reserve(&mut self, ops: u64, sectors: u64) -> Result<(), AllocError>
        requires { IsGood self.old }
        ensures good { IsGood self.new }
        ensures ok { OnOk result (Reserves (state_of self.old) ops sectors (state_of self.new)) }
        ensures err { OnErr result (state_of self.new ≡ state_of self.old) }
        ensures plan { self.new.fails.items ≡ self.old.fails.items }
    {
        if !self.queue.has_life_for(ops) {
            return Err(AllocError);
        }
        let more_ops = ops.max(self.queue.spare_ops()) as usize;
        let more_sectors = sectors.max(self.queue.spare_sectors()) as usize;
        self.steps.reserve(2 * more_ops + self.queue.in_flight())?;
        self.in_flight.reserve(more_ops)?;
        self.written.reserve(more_sectors)?;
        self.queue.reserve(ops, sectors)
    }

    /// Puts the operation in flight, records that, and answers its tag.
    pub fn submit(&mut self, op: Op) -> u64
        requires good { IsGood self.old }
        requires lies { Lies (state_of self.old).sizes op }
        requires ops { 0 < (state_of self.old).spare_ops }
        requires sectors { sectors_of op ≤ (state_of self.old).spare_sectors }
        ensures good { IsGood self.new }
        ensures submits { Submits (state_of self.old) op result (state_of self.new) }
        ensures plan { self.new.fails.items ≡ self.old.fails.items }
    {
        let work = recorded(&mut self.written, &op);
        let tag = self.queue.submit(op);
        self.steps.push_reserved(RecordedStep::Began(tag, work));
        self.in_flight.push_reserved(RecordedOp { tag, work });
        tag
    }
}

// What is recorded of the operation, the sectors of a write being kept.
fn recorded(written: &mut Vec<Bytes512>, op: &Op) -> RecordedWork
    requires room { vec_len written.old + sectors_of op.now ≤ vec_capacity written.old }
    requires lies { (sizes : _) × Lies sizes op.now }
    ensures kept { (more : _) × (written.new.items ≡ written.old.items ++ more) × (length more ≤ sectors_of op.now) × All IsSector more }
    ensures work { work_at written.new.items result ≡ work_of op.now }
    ensures is_kept { IsKept (length written.new.items) result }
    ensures len { vec_len written.new ≤ vec_len written.old + sectors_of op.now }
    ensures capacity { vec_capacity written.new ≡ vec_capacity written.old }
{
    match op {
        Op::Read(span, _) => RecordedWork::Reads(*span),
        Op::Write(span, sectors) => {
            let from = written.len();
            keep(written, sectors);
            RecordedWork::Writes(*span, from)
        }
        Op::Flush(pv) => RecordedWork::Flushes(*pv),
    }
}

// Keeps the sectors of a write.
fn keep(written: &mut Vec<Bytes512>, sectors: &Sectors)
    requires { vec_len written.old + length sectors.now ≤ vec_capacity written.old }
    ensures items { written.new.items ≡ written.old.items ++ sectors.now }
    ensures valid { All IsSector sectors.now }
    ensures len { vec_len written.new ≡ vec_len written.old + length sectors.now }
    ensures capacity { vec_capacity written.new ≡ vec_capacity written.old }
{
    for k in 0..sectors.len() {
        written.push_reserved(sectors.get(k));
    }
}
