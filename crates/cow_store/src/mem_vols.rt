//! Volumes in memory, which tell everything.
ghost use Rattle.std.specs.Prelude.{◌≡◌, ◌≤◌, ◌<◌, ◌^◌, [], ◌∷◌, length, slice_index_or, is_ok, is_none, IfOk, IfSome, OnErr, OnOk};
ghost use Rattle.disk_model.specs.CarriesOut.{CarriesOut};
ghost use Rattle.disk_model.specs.CrashValues.{IsImage};
ghost use Rattle.disk_model.specs.Moments.{EachImage, at_moment};
ghost use Rattle.disk_model.specs.Operations.{Lies, sectors_of};
ghost use Rattle.disk_model.specs.Puts.{one_sector};
ghost use Rattle.disk_model.specs.Steps.{Flushing, Reading, Writing, now_after};
ghost use Rattle.dev_shelf.specs.ChosenImage.{CanBeChosen, IsChosen};
ghost use Rattle.dev_shelf.specs.DiskRow.{image_of, new_state};
ghost use Rattle.dev_shelf.specs.MemShelf.{plan_left, state_of_shelf};
ghost use Rattle.dev_shelf.specs.Plan.{failure_of};
ghost use Rattle.cow_store.specs.MemVols.{IsBetweenCalls, between_prop, buffer_in, volumes_of};

use crate::{Failed, Vols};
use dev_shelf::{Done, Fail, Images, MemShelf, Op, Shelf, ShelfPlan};
use sector_base::{Bytes512, Sectors, Span};
use std::alloc::{AllocError, Global};
use std::mem;

/// Volumes in memory. They tell what they held at first and the record, and the operations of these numbers fail, counted
/// from 0: they are the disks of a shelf in memory.
#[derive(Drop)]
pub struct MemVols {
    alloc: Global,
    shelf: MemShelf,
    // One sector, for reads and writes.
    buffer: Sectors,
    ghost between: { IsBetweenCalls (state_of_shelf shelf) } by { between_prop (state_of_shelf shelf) },
    ghost one: { length buffer ≡ 1 },
}

impl MemVols {
    ghost use Rattle.cow_store.specs.MemViews.{fails_of, vols_of};

    /// Volumes with these images, nothing spare, and the operations that are to fail. Only memory can be wanting.
    pub fn new(alloc: Global, images: Images, fails: Vec<Fail>) -> Result<MemVols, AllocError>
        requires { length images < 2 ^ 32 }
        ensures state { IfOk result (λ vols. vols_of vols ≡ volumes_of (new_state images)) }
        ensures fails { IfOk result (λ vols. fails_of vols ≡ fails.items) }
    {
        let buffer = Sectors::zeroed(alloc, 1)?;
        let plan = ShelfPlan {
            picks: Vec::new(alloc),
            fails,
            holds: Vec::new(alloc),
            limit: 0,
        };
        let shelf = MemShelf::new(alloc, images, plan)?;
        Ok(MemVols {
            alloc,
            shelf,
            buffer,
        })
    }

    /// How many moments the record has after the first one: two for each operation.
    pub fn moments(&self) -> u64
        ensures { IfSome (vols_of self.now).told (λ told. result ≡ length told.steps) }
    {
        self.shelf.moments()
    }

    /// An image that a crash at this moment may leave: the k-th sector with more than one possible value takes value number
    /// `choices[k]` modulo how many it has. Some choices give each image that a crash may leave. Only memory can be wanting.
    pub fn images_at(&self, moment: u64, choices: &Vec<u64>) -> Result<Images, AllocError>
        requires { IfSome (vols_of self.now).told (λ told. moment ≤ length told.steps) }
        ensures chosen_values { IfSome (vols_of self.now).told (λ told.
            IfOk result (IsChosen (at_moment moment told) (vols_of self.now).sizes choices.now.items)) }
        ensures image { IfSome (vols_of self.now).told (λ told. IfOk result (λ images. IsImage (at_moment moment told) (image_of images))) }
        ensures every { IfSome (vols_of self.now).told (λ told.
            EachImage (CanBeChosen (at_moment moment told) (vols_of self.now).sizes) (at_moment moment told)) }
    {
        self.shelf.images_at(moment, choices)
    }
}

impl Vols for MemVols {
    ghost use Rattle.cow_store.specs.MemLaws.{lawful_volumes};
    ghost use Rattle.cow_store.specs.MemViews.{fails_of, vols_of};
    ghost use Rattle.cow_store.specs.MemVols.{FollowsPlan};
    ghost use Rattle.cow_store.specs.VolStates.{Operates, Reserves};
    ghost use Rattle.dev_shelf.specs.DiskRow.{state_of};
    ghost use Rattle.dev_shelf.specs.DiskRowInvariant.{lawful_of};
    ghost use Rattle.dev_shelf.specs.HeldLaws.{lawful_back};

    ghost state = { vols_of };

    ghost lawful = { λ vols. lawful_volumes (state_of_shelf vols.shelf)
        (lawful_back (plan_left vols.shelf) (state_of vols.shelf.row) (lawful_of vols.shelf.row vols.shelf.good)) vols.between };

    fn count(&self) -> u32 {
        self.shelf.count()
    }

    fn sectors(&self, v: u32) -> u64 {
        self.shelf.sectors(v)
    }

    fn faults(&self, v: u32) -> u64 {
        self.shelf.faults(v)
    }

    fn reserve(&mut self, ops: u64) -> Result<(), AllocError>
        ensures ok { OnOk result (Reserves (vols_of self.old) ops (vols_of self.new)) }
        ensures err { OnErr result (vols_of self.new ≡ vols_of self.old) }
        ensures plan { fails_of self.new ≡ fails_of self.old }
    {
        self.shelf.reserve(ops, ops)
    }

    fn read(&mut self, v: u32, at: u64, into: &mut Bytes512) -> Result<(), Failed>
        requires volume { v < length (vols_of self.old).sizes }
        requires sector { at < slice_index_or (vols_of self.old).sizes v 0 }
        requires spare { 0 < (vols_of self.old).spare }
        ensures operates { Operates (vols_of self.old) (Reading (one_sector v at)) (is_ok result) (vols_of self.new) }
        ensures read { OnOk result (IfSome (vols_of self.old).told (λ told. into.new ≡ now_after told.opened told.steps v at)) }
        ensures plan { FollowsPlan (vols_of self.old) (fails_of self.old) (Reading (one_sector v at)) (is_ok result) (vols_of self.new) (fails_of self.new) }
    {
        let span = one_sector(v, at);
        let buffer = mem::replace(&mut self.buffer, Sectors::from_vec(Vec::new(self.alloc)));
        let Done { op, well, .. } = run(&mut self.shelf, Op::Read(span, buffer));
        self.buffer = buffer_of(op);
        if !well {
            return Err(Failed);
        }
        *into = self.buffer.get(0);
        Ok(())
    }

    fn write(&mut self, v: u32, at: u64, from: &Bytes512) -> Result<(), Failed>
        requires volume { v < length (vols_of self.old).sizes }
        requires sector { at < slice_index_or (vols_of self.old).sizes v 0 }
        requires spare { 0 < (vols_of self.old).spare }
        ensures operates { Operates (vols_of self.old) (Writing (one_sector v at) (from.now ∷ [])) (is_ok result) (vols_of self.new) }
        ensures plan { FollowsPlan (vols_of self.old) (fails_of self.old) (Writing (one_sector v at) (from.now ∷ [])) (is_ok result) (vols_of self.new) (fails_of self.new) }
    {
        let span = one_sector(v, at);
        let mut buffer = mem::replace(&mut self.buffer, Sectors::from_vec(Vec::new(self.alloc)));
        buffer.set(0, *from);
        let Done { op, well, .. } = run(&mut self.shelf, Op::Write(span, buffer));
        self.buffer = buffer_of(op);
        answer(well)
    }

    fn flush(&mut self, v: u32) -> Result<(), Failed>
        requires volume { v < length (vols_of self.old).sizes }
        requires spare { 0 < (vols_of self.old).spare }
        ensures operates { Operates (vols_of self.old) (Flushing v) (is_ok result) (vols_of self.new) }
        ensures plan { FollowsPlan (vols_of self.old) (fails_of self.old) (Flushing v) (is_ok result) (vols_of self.new) (fails_of self.new) }
    {
        let done = run(&mut self.shelf, Op::Flush(v));
        answer(done.well)
    }
}

// The span of one sector.
fn one_sector(v: u32, at: u64) -> Span
    ensures { result ≡ one_sector v at }
{
    Span {
        pv: v,
        first: at,
        count: 1,
    }
}

// What a call answers whose operation went well or not.
fn answer(well: bool) -> Result<(), Failed>
    ensures { is_ok result ≡ well }
{
    if well { Ok(()) } else { Err(Failed) }
}

// The buffer of the operation.
fn buffer_of(op: Op) -> Sectors
    requires { 0 < sectors_of op }
    ensures { result ≡ buffer_in op }
{
    match op {
        Op::Read(_, sectors) | Op::Write(_, sectors) => sectors,
        Op::Flush(_) => unreachable!(),
    }
}

// Carries the operation out; nothing else is in flight.
fn run(shelf: &mut MemShelf, op: Op) -> Done
    requires idle { (state_of_shelf shelf.old).in_flight ≡ [] }
    requires lies { Lies (state_of_shelf shelf.old).sizes op }
    requires ops { 0 < (state_of_shelf shelf.old).spare_ops }
    requires sectors { sectors_of op ≤ (state_of_shelf shelf.old).spare_sectors }
    ensures carries_out { CarriesOut (state_of_shelf shelf.old) op result (state_of_shelf shelf.new) }
    ensures fails { result.well ≡ is_none (failure_of (plan_left shelf.old).fails result.tag) }
    ensures plan { (plan_left shelf.new).fails ≡ (plan_left shelf.old).fails }
{
    let _tag = shelf.submit(op);
    match shelf.settle() {
        Some(done) => done,
        None => unreachable!(),
    }
}
