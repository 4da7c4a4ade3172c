//! The operations in flight and the counts of a shelf.
ghost use Rattle.std.specs.Prelude.{◌≡◌, ◌≤◌, ◌<◌, ◌+◌, ℕ, ◌^◌, ◌↔◌, IsTrue, OnOk, OnErr, IfOk, IfSome, IsSome, length, max, replicate, slice_index_or, vec_len, not, ◌==◌, ◌&&◌, if◌then◌else◌};
ghost use Rattle.disk_model.specs.Operations.{Lies, sectors_of, disk_of as disk_number};
ghost use Rattle.disk_model.specs.Calls.{Submits, Reserves};

use disk_model::{Done, Op};
use std::alloc::{AllocError, Global};
use std::collections::VecDeque;

/// An operation in flight.
#[derive(Debug, Drop)]
pub struct Waiting {
    pub tag: u64,
    pub op: Op,
}

/// The sizes of the disks in sectors, their counts of faults, the operations in flight, the oldest first, and the counts of
/// spare operations and sectors and of steps. Every operation in flight is ready. The tags are 0, 1 and so on.
#[derive(Drop)]
pub struct OpQueue {
    sizes: Vec<u64>,
    faults: Vec<u64>,
    waiting: VecDeque<Waiting>,
    spare_ops: u64,
    spare_sectors: u64,
    steps: u64,
    next_tag: u64,
}

// So many operations have room in a shelf's life.
const LIFE: u64 = 1 << 62;

/// The disk of the operation.
pub fn disk_of(op: &Op) -> u32
    ensures { result ≡ disk_number op.now }
{
    match op {
        Op::Read(span, _) | Op::Write(span, _) => span.pv,
        Op::Flush(pv) => *pv,
    }
}

// How many spare sectors the operation uses up.
fn count_of(op: &Op) -> u64
    ensures { result ≡ sectors_of op.now }
{
    match op {
        Op::Read(span, _) | Op::Write(span, _) => u64::from(span.count),
        Op::Flush(_) => 0,
    }
}

// So many counts that stand at 0.
fn zeros(alloc: Global, count: usize) -> Result<Vec<u64>, AllocError>
    ensures { IfOk result (λ counts. counts.items ≡ replicate count 0) }
{
    Ok(vec![in alloc; 0; count]?)
}

// Counts a fault of the disk, where the operation didn't go well.
fn count_fault(faults: &mut Vec<u64>, disk: u32, well: bool)
    requires disk { disk < vec_len faults.old }
    requires room { (p : ℕ) → slice_index_or faults.old.items p 0 < 2 ^ 62 }
    ensures len { vec_len faults.new ≡ vec_len faults.old }
    ensures each { (p : ℕ) → slice_index_or faults.new.items p 0 ≡
        (if not well && (disk == p) then slice_index_or faults.old.items p 0 + 1 else slice_index_or faults.old.items p 0) }
{
    if !well {
        faults[disk as usize] += 1;
    }
}

impl OpQueue {
    ghost use Rattle.op_queue.specs.Queue.{opened_state, operation_of, state_of};
    ghost use Rattle.op_queue.specs.QueueInvariant.{IsGood};
    ghost use Rattle.op_queue.specs.Completing.{IsTakenFrom, CompletesAt};

    /// Disks of these sizes in sectors, before the first step. Only memory can be wanting.
    pub fn new(alloc: Global, sizes: Vec<u64>) -> Result<Self, AllocError>
        requires { vec_len sizes < 2 ^ 32 }
        ensures good { IfOk result IsGood }
        ensures state { IfOk result (λ queue. state_of queue ≡ opened_state sizes.items) }
    {
        let faults = zeros(alloc, sizes.len())?;
        Ok(OpQueue {
            sizes,
            faults,
            waiting: VecDeque::new(alloc),
            spare_ops: 0,
            spare_sectors: 0,
            steps: 0,
            next_tag: 0,
        })
    }

    /// How many disks there are.
    pub fn count(&self) -> u32
        requires { IsGood self.now }
        ensures { result ≡ length (state_of self.now).sizes }
    {
        self.sizes.len() as u32
    }

    /// How many sectors the disk has.
    pub fn sectors(&self, pv: u32) -> u64
        requires { pv < length (state_of self.now).sizes }
        ensures { result ≡ slice_index_or (state_of self.now).sizes pv 0 }
    {
        self.sizes[pv as usize]
    }

    /// How many operations of the disk have failed.
    pub fn faults(&self, pv: u32) -> u64
        requires good { IsGood self.now }
        requires disk { pv < length (state_of self.now).sizes }
        ensures { result ≡ (state_of self.now).faults pv }
    {
        self.faults[pv as usize]
    }

    /// How many submissions and completions there were.
    pub fn steps(&self) -> u64
        ensures { result ≡ (state_of self.now).steps }
    {
        self.steps
    }

    /// How many operations are in flight.
    pub fn in_flight(&self) -> usize
        ensures { result ≡ length (state_of self.now).in_flight }
    {
        self.waiting.len()
    }

    /// How many operations are spare.
    pub fn spare_ops(&self) -> u64
        ensures { result ≡ (state_of self.now).spare_ops }
    {
        self.spare_ops
    }

    /// How many sectors are spare.
    pub fn spare_sectors(&self) -> u64
        ensures { result ≡ (state_of self.now).spare_sectors }
    {
        self.spare_sectors
    }

    /// Whether so many operations more have room in the life of a shelf, which is 2^62 operations.
    pub fn has_life_for(&self, ops: u64) -> bool
        requires { IsGood self.now }
        ensures { IsTrue result ↔ ((state_of self.now).next_tag + ops ≤ 2 ^ 62) }
    {
        ops <= LIFE - self.next_tag
    }

    /// Makes at least so many operations and sectors spare; the sectors come with each operation's buffer. Only memory can
    /// be wanting, and for more operations than the life of a shelf has room for it is.
    pub fn reserve(&mut self, ops: u64, sectors: u64) -> Result<(), AllocError>
        requires { IsGood self.old }
        ensures good { IsGood self.new }
        ensures ok { OnOk result (Reserves (state_of self.old) ops sectors (state_of self.new)) }
        ensures spare { OnOk result (((state_of self.new).spare_ops ≡ max ops (state_of self.old).spare_ops)
            × ((state_of self.new).spare_sectors ≡ max sectors (state_of self.old).spare_sectors)) }
        ensures err { OnErr result (state_of self.new ≡ state_of self.old) }
    {
        if !self.has_life_for(ops) {
            return Err(AllocError);
        }
        let ops = ops.max(self.spare_ops);
        self.waiting.reserve(ops as usize)?;
        self.spare_ops = ops;
        self.spare_sectors = sectors.max(self.spare_sectors);
        Ok(())
    }

    /// Queues the operation, and answers its tag.
    pub fn submit(&mut self, op: Op) -> u64
        requires good { IsGood self.old }
        requires lies { Lies (state_of self.old).sizes op }
        requires ops { 0 < (state_of self.old).spare_ops }
        requires sectors { sectors_of op ≤ (state_of self.old).spare_sectors }
        ensures good { IsGood self.new }
        ensures submits { Submits (state_of self.old) op result (state_of self.new) }
    {
        let tag = self.next_tag;
        self.spare_ops -= 1;
        self.spare_sectors -= count_of(&op);
        self.waiting.push_back_reserved(Waiting { tag, op });
        self.steps += 1;
        self.next_tag += 1;
        tag
    }

    /// The operation at this place of those in flight, the oldest being at 0; `None` where there are no more than so many.
    pub fn get(&self, at: usize) -> Option<&Waiting>
        requires { IsGood self.now }
        ensures there { IsSome result ↔ (at < length (state_of self.now).in_flight) }
        ensures which { IfSome result (λ it. slice_index_or (state_of self.now).in_flight at (operation_of it.now) ≡ operation_of it.now) }
        ensures lies { IfSome result (λ it. Lies (state_of self.now).sizes it.now.op) }
    {
        self.waiting.get(at)
    }

    /// Takes the operation at this place of those in flight out, the oldest being at 0, so that it can be carried out;
    /// `complete` is to follow.
    pub fn take(&mut self, at: usize) -> Waiting
        requires good { IsGood self.old }
        requires at { at < length (state_of self.old).in_flight }
        ensures { IsTakenFrom self.old at result.tag result.op self.new }
    {
        self.waiting.remove(at).unwrap()
    }

    /// Completes the operation that was taken out, now that it has gone well or not: one step more, and a fault of its disk
    /// where it hasn't.
    pub fn complete(&mut self, tag: u64, op: Op, well: bool) -> Done
        requires { (whole : _) × (at : ℕ) × IsTakenFrom whole at tag op self.old }
        ensures done { result ≡ record { tag = tag; op = op; well = well } }
        ensures good { IsGood self.new }
        ensures completes { (whole : _) (at : ℕ) → IsTakenFrom whole at tag op self.old → CompletesAt (state_of whole) at result (state_of self.new) }
    {
        count_fault(&mut self.faults, disk_of(&op), well);
        self.steps += 1;
        Done { tag, op, well }
    }
}
