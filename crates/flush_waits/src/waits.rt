//! What waits on the disks, beside the plan of their flushes.
ghost use Rattle.std.specs.Prelude.{◌≡◌, ◌≤◌, ◌<◌, ◌+◌, ◌*◌, ◌^◌, IfOk, IfSome, IsFalse, IsTrue, None, OnErr, OnOk, [], length, slice_get};
ghost use Rattle.flush_plan.specs.Plans.{flight_of, flush_of, is_in_flight, marks_of};
ghost use Rattle.flush_waits.specs.declared.waits.Awaited.TheVariants.{Unserved};
ghost use Rattle.flush_waits.specs.Waits.{awaited, dirty_at, disk_waits, is_wanted, new_waits};
ghost use Rattle.flush_waits.specs.Steps.{after_ended, after_forgot, after_noted, after_release, after_reserve, after_submitted, after_wait, after_wrote};

use crate::disk_waits::DiskQueue;
use crate::ticket::{Ticket, Waiter, Waiting};
use flush_plan::FlushPlan;
use std::alloc::{AllocError, Global};
use std::marker::Model;

/// How it stands with a write that something begins to wait for.
#[derive(Clone, Copy, Debug, Drop, PartialEq, Eq)]
pub enum Awaited {
    /// It lasts already.
    Stable,
    /// A flush behind it has ended, and none that did well.
    Lost,
    /// The flush in flight serves it.
    Served,
    /// No flush serves it yet.
    Unserved,
}

/// The flushes of some disks, what waits for them, and of each volume and each disk the place of the volume's last write there.
/// Contracts see it as the record `Waits`.
#[derive(Drop)]
pub struct FlushWaits {
    plan: FlushPlan,
    disks: Vec<DiskQueue>,
    dirty: Vec<u64>,
    waited: u64,
    room: u64,
}

// So much may wait in all.
const MOST: u64 = 1 << 62;

impl Model for FlushWaits {
    ghost use Rattle.std.specs.Prelude.{◌≡◌, ◌<◌, ◌≤◌, ◌+◌, ◌^◌, length};
    ghost use Rattle.flush_waits.specs.Waits.{AreBelow, AreCompleted, AreInOrder, Waits};

    ghost Value = { Waits };

    ghost view = { λ w. record { plan = w.plan; disks = w.disks.items; dirty = w.dirty.items; room = w.room } };

    // What waits on a disk is counted, and waits for the flush that it stands with.
    ghost invariant = { λ w. AreInOrder w.plan w.disks.items × AreCompleted w.plan.held w.dirty.items × AreBelow w.waited w.disks.items × (w.waited + w.room ≤ 2 ^ 62) };
}

impl FlushWaits {
    /// Nothing waits, over so many disks and for so many volumes, by their keys. Only memory can be wanting.
    pub fn new(alloc: Global, disks: u32, volumes: u32) -> Result<Self, AllocError>
        ensures { IfOk result (λ waits. waits ≡ new_waits disks volumes) }
    {
        let mut plan = FlushPlan::new(alloc, disks)?;
        plan.reserve(0, u64::from(disks))?;
        let mut queues = Vec::with_capacity(alloc, disks as usize)?;
        for _ in 0..disks {
            queues.push(DiskQueue::new(alloc))?;
        }
        let dirty = vec![in alloc; 0u64; volumes as usize * disks as usize]?;
        Ok(FlushWaits {
            plan,
            disks: queues,
            dirty,
            waited: 0,
            room: 0,
        })
    }

    /// How many disks there are.
    pub fn disks(&self) -> u32
        ensures { result ≡ length self.now.disks }
    {
        self.disks.len() as u32
    }

    /// Makes at least so many writes spare, and room for so many more that wait. Only memory can be wanting.
    pub fn reserve(&mut self, writes: u64, waits: u64) -> Result<(), AllocError>
        ensures ok { OnOk result (self.new ≡ after_reserve self.old writes waits) }
        ensures err { OnErr result (self.new ≡ self.old) }
    {
        let room = waits.max(self.room);
        if MOST - self.waited < room {
            return Err(AllocError);
        }
        self.plan.reserve(writes, 0)?;
        self.room = room;
        Ok(())
    }

    /// A write of this number on this disk completed well. It uses up a spare write; its place in the order of writes comes back,
    /// the last one. No flush serves it yet.
    pub fn wrote(&mut self, number: u64, pv: u32) -> u64
        requires spare { 0 < self.old.plan.spare }
        requires disk { pv < length self.old.disks }
        ensures place { result ≡ (marks_of self.new.plan pv).written }
        ensures last { result ≡ self.new.plan.held }
        ensures unserved { awaited self.new pv result ≡ Unserved }
        ensures after { self.new ≡ after_wrote self.old number pv }
    {
        self.plan.wrote(number, pv);
        self.plan.marks(pv).written
    }

    /// The write of this number on this disk isn't asked for any more.
    pub fn forget(&mut self, number: u64, pv: u32)
        ensures { self.new ≡ after_forgot self.old number pv }
    {
        self.plan.forget(number, pv);
    }

    /// The volume with this key was written last at this place of the disk's writes.
    pub fn note(&mut self, key: u32, pv: u32, place: u64)
        requires within { key * length self.old.disks + pv < length self.old.dirty }
        requires completed { place ≤ self.old.plan.held }
        ensures { self.new ≡ after_noted self.old key pv place }
    {
        let at = key as usize * self.disks.len() + pv as usize;
        self.dirty[at] = place;
    }

    /// The place of the last write of the volume with this key on the disk, 0 without one.
    pub fn dirty(&self, key: u32, pv: u32) -> u64
        requires within { key * length self.now.disks + pv < length self.now.dirty }
        ensures place { result ≡ dirty_at self.now key pv }
        ensures completed { result ≤ self.now.plan.held }
    {
        self.dirty[key as usize * self.disks.len() + pv as usize]
    }

    /// How it stands with the write at this place of the disk's.
    pub fn awaited(&self, pv: u32, place: u64) -> Awaited
        requires disk { pv < length self.now.disks }
        ensures { result ≡ awaited self.now pv place }
    {
        let marks = self.plan.marks(pv);
        if place <= marks.stable {
            return Awaited::Stable;
        }
        if place <= marks.ended {
            return Awaited::Lost;
        }
        match self.plan.flight(pv) {
            Some(flush) if place <= flush.after => Awaited::Served,
            _ => Awaited::Unserved,
        }
    }

    /// It waits for the write at this place of the disk's, where that isn't stable or lost. It uses up the room of one.
    pub fn wait(&mut self, ticket: Ticket, waiter: Waiter, pv: u32, place: u64) -> Awaited
        requires disk { pv < length self.old.disks }
        requires completed { place ≤ self.old.plan.held }
        requires room { 0 < self.old.room }
        ensures answer { result ≡ awaited self.old pv place }
        ensures after { self.new ≡ after_wait self.old (record { waiter = waiter; place = place }) pv }
    {
        let awaited = self.awaited(pv, place);
        let waiting = Waiting { waiter, place };
        self.room -= 1;
        self.waited += 1;
        match awaited {
            Awaited::Stable | Awaited::Lost => {}
            Awaited::Served => self.disks[pv as usize].serve(ticket, waiting),
            Awaited::Unserved => self.disks[pv as usize].defer(ticket, waiting),
        }
        awaited
    }

    /// How much waits on the disk that no flush serves.
    pub fn unserved(&self, pv: u32) -> u64
        requires disk { pv < length self.now.disks }
        ensures { result ≡ length (disk_waits self.now pv).next }
    {
        self.disks[pv as usize].unserved()
    }

    /// Whether a flush of the disk is wanted: something waits there that none serves, and none is in flight.
    pub fn wants(&self, pv: u32) -> bool
        requires disk { pv < length self.now.disks }
        ensures { result ≡ is_wanted self.now pv }
    {
        self.unserved(pv) > 0 && self.plan.flight(pv).is_none()
    }

    /// A flush of the disk was submitted under this tag: it serves all that waits there.
    pub fn submitted(&mut self, pv: u32, tag: u64)
        requires disk { pv < length self.old.disks }
        requires fresh { IsFalse (is_in_flight self.old.plan tag) }
        requires none { flight_of self.old.plan pv ≡ None }
        requires released { (disk_waits self.old pv).served ≡ [] }
        ensures { self.new ≡ after_submitted self.old pv tag }
    {
        self.plan.submitted(pv, tag);
        self.disks[pv as usize].advance();
    }

    /// The flush with this tag ended, well or not. What it served is to be released; it is stable where the flush completed well.
    pub fn ended(&mut self, tag: u64, well: bool)
        requires { IsTrue (is_in_flight self.old.plan tag) }
        ensures after { self.new ≡ after_ended self.old tag well }
        ensures none { flight_of self.new.plan (flush_of self.old.plan tag).pv ≡ None }
        ensures stable { IsTrue well → let m = marks_of self.new.plan (flush_of self.old.plan tag).pv in m.stable ≡ m.ended }
    {
        if well {
            self.plan.flushed(tag);
        } else {
            self.plan.lost(tag);
        }
    }

    /// The first that the disk's last flush served waits no more, if there is one left. That flush was behind its write.
    pub fn release(&mut self, pv: u32) -> Option<Waiting>
        requires disk { pv < length self.old.disks }
        requires ended { flight_of self.old.plan pv ≡ None }
        ensures first { result ≡ slice_get (disk_waits self.old pv).served 0 }
        ensures behind { IfSome result (λ w. w.place ≤ (marks_of self.old.plan pv).ended) }
        ensures after { self.new ≡ after_release self.old pv }
    {
        self.disks[pv as usize].pop()
    }
}
