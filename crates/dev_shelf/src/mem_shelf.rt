//! A row of disks in memory, which keeps the images at opening and the record of all steps.
ghost use Rattle.std.specs.Prelude.{◌≡◌, ◌≢◌, ◌≤◌, ◌<◌, ◌^◌, ◌↔◌, [], length, IfOk, IfSome, IsNone, IsTrue, MatchOption, Contains};
ghost use Rattle.disk_model.specs.Calls.{Completes, MakesReady};
ghost use Rattle.disk_model.specs.CrashValues.{IsImage};
ghost use Rattle.disk_model.specs.Moments.{EachImage, at_moment};
ghost use Rattle.dev_shelf.specs.ChosenImage.{CanBeChosen, IsChosen};
ghost use Rattle.dev_shelf.specs.DiskRow.{image_of, lengths_of, new_state};
ghost use Rattle.dev_shelf.specs.DiskRowInvariant.{IsGood, good_prop};

mod completion;
mod crash_image;
mod disk_row;
mod holding;
mod numbers;
mod recorded;
mod submission;
mod touched;
mod values;

use crate::{Images, ShelfPlan};
use crash_image::disks_at;
use disk_model::{Done, Op, Shelf};
use disk_row::DiskRow;
use holding::Holding;
use numbers::next_of;
use op_queue::OpQueue;
use sector_base::{Sectors, see_sectors};
use std::alloc::{AllocError, Global};

/// A row of disks in memory. It tells its images at opening and its record, and completes and fails its operations as
/// its plan says.
#[derive(Drop)]
pub struct MemShelf {
    alloc: Global,
    row: DiskRow,
    picks: Vec<u64>,
    picked: usize,
    holding: Holding,
    ghost good: { IsGood row } by { good_prop row },
    // each operation that was let go has a tag of its own
    ghost forced: { holding.forced ≤ holding.let_go },
}

impl MemShelf {
    ghost use Rattle.dev_shelf.specs.Plan.{FollowsPlan, after_vain, before_settling, held_back, whole_plan};
    ghost use Rattle.dev_shelf.specs.MemShelf.{plan_left, state_of_shelf};

    /// Disks with these images, nothing in flight and nothing spare. Only memory can be wanting.
    pub fn new(alloc: Global, images: Images, plan: ShelfPlan) -> Result<MemShelf, AllocError>
        requires { length images < 2 ^ 32 }
        ensures state { IfOk result (λ shelf. state_of_shelf shelf ≡ new_state images) }
        ensures plan { IfOk result (λ shelf. plan_left shelf ≡ whole_plan plan) }
    {
        see_sectors(images.as_slice());
        let current = copies(alloc, images.as_slice())?;
        let sizes = sizes_of(alloc, images.as_slice())?;
        let queue = OpQueue::new(alloc, sizes)?;
        let row = DiskRow {
            opened: images.into_vec(),
            current,
            queue,
            in_flight: Vec::new(alloc),
            steps: Vec::new(alloc),
            written: Vec::new(alloc),
            fails: plan.fails,
        };
        Ok(MemShelf {
            alloc,
            row,
            picks: plan.picks,
            picked: 0,
            holding: Holding::new(plan.holds, plan.limit),
        })
    }

    /// How many moments the record has after that of opening, which is moment 0: one for each step.
    pub fn moments(&self) -> u64
        ensures { result ≡ (state_of_shelf self.now).steps }
    {
        self.row.queue.steps()
    }

    /// An image that a crash at this moment may leave. The k-th sector with more than one possible value, in order of
    /// disk and sector, takes value number `choices[k]` modulo how many it has, and the first value after the list's
    /// end. The values of a sector are the opened one and then those of its writes, in the order in which they were
    /// submitted. Some choices give each image that a crash may leave. Only memory can be wanting.
    pub fn images_at(&self, moment: u64, choices: &Vec<u64>) -> Result<Images, AllocError>
        requires { moment ≤ (state_of_shelf self.now).steps }
        ensures chosen_values { IfSome (state_of_shelf self.now).told (λ told.
            IfOk result (IsChosen (at_moment moment told) (state_of_shelf self.now).sizes choices.now.items)) }
        ensures image { IfSome (state_of_shelf self.now).told (λ told.
            IfOk result (λ images. IsImage (at_moment moment told) (image_of images))) }
        ensures every { IfSome (state_of_shelf self.now).told (λ told.
            EachImage (CanBeChosen (at_moment moment told) (state_of_shelf self.now).sizes) (at_moment moment told)) }
    {
        let disks = disks_at(self.alloc, &self.row, moment as usize, choices)?;
        Ok(Images::from_vec(disks))
    }

    /// How many operations were let go, by the plan's limit or by `settle`.
    pub fn forced(&self) -> u64
        ensures { result ≡ (plan_left self.now).forced }
    {
        self.holding.forced
    }

    // Whether an operation is ready.
    fn has_ready(&self) -> bool
        ensures { IsTrue result ↔ ((state_of_shelf self.now).ready ≢ []) }
    {
        self.holding.ready_count(&self.row) > 0
    }

    // Completes an operation that is ready; none where none is.
    fn reap_ready(&mut self) -> Option<Done>
        ensures none { IsNone result ↔ ((state_of_shelf self.old).ready ≡ []) }
        ensures cases { MatchOption result (MakesReady (state_of_shelf self.old) (state_of_shelf self.new)) (λ done. Completes (state_of_shelf self.old) done (state_of_shelf self.new)) }
        ensures ready { IfSome result (λ done. Contains (state_of_shelf self.old).ready done.tag) }
        ensures plan { MatchOption result (plan_left self.new ≡ after_vain (state_of_shelf self.old).in_flight (plan_left self.old))
            (λ done. FollowsPlan (state_of_shelf self.old) (plan_left self.old) done (state_of_shelf self.new) (plan_left self.new)) }
    {
        if self.has_ready() {
            return Some(self.complete_ready());
        }
        self.count_vain();
        None
    }

    // Completes the next operation of the plan, of those that are ready.
    fn complete_ready(&mut self) -> Done
        requires { (state_of_shelf self.old).ready ≢ [] }
        ensures completes { Completes (state_of_shelf self.old) result (state_of_shelf self.new) }
        ensures ready { Contains (state_of_shelf self.old).ready result.tag }
        ensures plan { FollowsPlan (state_of_shelf self.old) (plan_left self.old) result (state_of_shelf self.new) (plan_left self.new) }
    {
        let ready = self.holding.ready_count(&self.row);
        let pick = next_of(&self.picks, &mut self.picked);
        let at = self
            .holding
            .place_of_ready(&self.row, pick as usize % ready);
        self.holding.vain = 0;
        self.row.complete(at)
    }

    // Counts a vain answer, where something is in flight and nothing is ready, and may let the oldest go.
    fn count_vain(&mut self)
        requires { (state_of_shelf self.old).ready ≡ [] }
        ensures plan { plan_left self.new ≡ after_vain (state_of_shelf self.old).in_flight (plan_left self.old) }
        ensures state { state_of_shelf self.new ≡ held_back (plan_left self.new) (state_of_shelf self.old) }
    {
        if self.row.in_flight.is_empty() {
            return;
        }
        if self.holding.limit.saturating_sub(self.holding.vain) > 1 {
            self.holding.vain += 1;
        } else {
            self.let_oldest_go();
        }
    }

    // Lets the oldest operation in flight go, where none is ready.
    fn let_oldest_go(&mut self)
        requires ready { (state_of_shelf self.old).ready ≡ [] }
        requires in_flight { (state_of_shelf self.old).in_flight ≢ [] }
        ensures plan { plan_left self.new ≡ before_settling [] (state_of_shelf self.old).in_flight (plan_left self.old) }
        ensures state { state_of_shelf self.new ≡ held_back (plan_left self.new) (state_of_shelf self.old) }
    {
        self.holding.let_go(self.row.in_flight[0].tag);
    }

    // Makes an operation ready that is in flight: where none is, the oldest is let go.
    fn make_ready(&mut self)
        requires { (state_of_shelf self.old).in_flight ≢ [] }
        ensures ready { (state_of_shelf self.new).ready ≢ [] }
        ensures plan { plan_left self.new ≡ before_settling (state_of_shelf self.old).ready (state_of_shelf self.old).in_flight (plan_left self.old) }
        ensures state { state_of_shelf self.new ≡ held_back (plan_left self.new) (state_of_shelf self.old) }
    {
        if !self.has_ready() {
            self.let_oldest_go();
        }
    }
}

impl Shelf for MemShelf {
    ghost use Rattle.std.specs.Prelude.{OnOk, OnErr};
    ghost use Rattle.disk_model.specs.Operations.{Lies, sectors_of};
    ghost use Rattle.disk_model.specs.Calls.{Reaps, Reserves, Submits};
    ghost use Rattle.dev_shelf.specs.DiskRow.{state_of};
    ghost use Rattle.dev_shelf.specs.DiskRowInvariant.{lawful_of};
    ghost use Rattle.dev_shelf.specs.HeldLaws.{lawful_back};
    ghost use Rattle.dev_shelf.specs.Plan.{FollowsPlan, Settles, after_vain};
    ghost use Rattle.dev_shelf.specs.MemShelf.{plan_left, state_of_shelf};

    ghost state = { state_of_shelf };

    ghost lawful = { λ shelf. lawful_back (plan_left shelf) (state_of shelf.row) (lawful_of shelf.row shelf.good) };

    fn count(&self) -> u32 {
        self.row.queue.count()
    }

    fn sectors(&self, pv: u32) -> u64 {
        self.row.queue.sectors(pv)
    }

    fn faults(&self, pv: u32) -> u64 {
        self.row.queue.faults(pv)
    }

    fn steps(&self) -> u64 {
        self.row.queue.steps()
    }

    fn reserve(&mut self, ops: u64, sectors: u64) -> Result<(), AllocError>
        ensures ok { OnOk result (Reserves (state_of_shelf self.old) ops sectors (state_of_shelf self.new)) }
        ensures err { OnErr result (state_of_shelf self.new ≡ state_of_shelf self.old) }
        ensures plan { plan_left self.new ≡ plan_left self.old }
    {
        self.row.reserve(ops, sectors)
    }

    fn submit(&mut self, op: Op) -> u64
        requires lies { Lies (state_of_shelf self.old).sizes op }
        requires ops { 0 < (state_of_shelf self.old).spare_ops }
        requires sectors { sectors_of op ≤ (state_of_shelf self.old).spare_sectors }
        ensures submits { Submits (state_of_shelf self.old) op result (state_of_shelf self.new) }
        ensures plan { plan_left self.new ≡ plan_left self.old }
    {
        self.row.submit(op)
    }

    fn reap(&mut self) -> Option<Done>
        ensures reaps { Reaps (state_of_shelf self.old) result (state_of_shelf self.new) }
        ensures plan { MatchOption result (plan_left self.new ≡ after_vain (state_of_shelf self.old).in_flight (plan_left self.old))
            (λ done. FollowsPlan (state_of_shelf self.old) (plan_left self.old) done (state_of_shelf self.new) (plan_left self.new)) }
    {
        self.reap_ready()
    }

    fn settle(&mut self) -> Option<Done>
        ensures none { IsNone result ↔ ((state_of_shelf self.old).in_flight ≡ []) }
        ensures cases { MatchOption result (MakesReady (state_of_shelf self.old) (state_of_shelf self.new)) (λ done. Completes (state_of_shelf self.old) done (state_of_shelf self.new)) }
        ensures plan { MatchOption result (plan_left self.new ≡ plan_left self.old)
            (λ done. Settles (state_of_shelf self.old) (plan_left self.old) done (state_of_shelf self.new) (plan_left self.new)) }
    {
        if self.row.queue.in_flight() == 0 {
            return None;
        }
        self.make_ready();
        Some(self.complete_ready())
    }
}

// A copy of each disk.
fn copies(alloc: Global, disks: &[Sectors]) -> Result<Vec<Sectors>, AllocError>
    ensures { IfOk result (λ copy. copy.items ≡ disks.now) }
{
    let mut all = Vec::new(alloc);
    for disk in disks {
        all.push(disk.try_copy(alloc)?)?;
    }
    Ok(all)
}

// The size of each disk in sectors.
fn sizes_of(alloc: Global, disks: &[Sectors]) -> Result<Vec<u64>, AllocError>
    ensures { IfOk result (λ sizes. sizes.items ≡ lengths_of disks.now) }
{
    disks.iter().map(|disk| disk.len() as u64).collect(alloc)
}
