//! The plan: writes that completed, flushes in flight, and what they made stable.
ghost use Rattle.std.specs.Prelude.{◌≡◌, ◌<◌, ◌==◌, IsTrue, IsFalse, OnErr, OnOk, IfOk, IfSome, length, max, position};
ghost use Rattle.std.specs.List.{position_or_len, list_any};
ghost use Rattle.flush_plan.specs.Plans.{SaysOfOthers, flight_of, is_ended, is_in_flight, is_stable, is_wanted, marks_of};
ghost use Rattle.flush_plan.specs.Steps.{new_plan, after_wrote, after_forgot, after_submitted, after_flushed, after_lost};

use crate::{Flush, Marks, Write};
use indexmap::IndexMap;
use std::alloc::{AllocError, Global};
use std::marker::Model;

/// Completed writes and flushes in flight over some disks. Contracts see it as the record `Plan`.
#[derive(Drop)]
pub struct FlushPlan {
    last: IndexMap<Write, u64>,
    marks: Vec<Marks>,
    flushes: Vec<Flush>,
    held: u64,
    spare: u64,
    spare_flushes: u64,
}

impl Model for FlushPlan {
    ghost use Rattle.std.specs.Prelude.{◌≤◌, ◌<◌, ◌+◌, ◌^◌, All, vec_capacity, vec_len};
    ghost use Rattle.indexmap.specs.IndexMap.{spare as room};
    ghost use Rattle.flush_plan.specs.Plans.{Plan};

    ghost Value = { Plan };

    ghost view = { λ p. record { last = p.last.entries; marks = p.marks.items; flushes = p.flushes.items; held = p.held; spare = p.spare; spare_flushes = p.spare_flushes } };

    // What is spare has room, and can be counted; each flush is of one of the disks.
    ghost invariant = { λ p. (p.spare ≤ room p.last) × (p.held + p.spare < 2 ^ 64) × (vec_len p.flushes + p.spare_flushes ≤ vec_capacity p.flushes) × All (λ f. f.pv < vec_len p.marks) p.flushes.items };
}

// The place of the flush with this tag, if there is one.
fn find_flush(flushes: &[Flush], tag: u64) -> Option<usize>
    ensures { result ≡ position (λ f. f.tag == tag) flushes.now }
{
    flushes.iter().position(|f| f.tag == tag)
}

// The place of the first flush of the disk, if there is one.
fn find_flight(flushes: &[Flush], pv: u32) -> Option<usize>
    ensures place { result ≡ position (λ f. f.pv == pv) flushes.now }
    ensures within { IfSome result (λ at. at < length flushes.now) }
{
    flushes.iter().position(|f| f.pv == pv)
}

// Where the flush with this tag stands.
fn place_of(flushes: &[Flush], tag: u64) -> usize
    requires { IsTrue (list_any (λ f. f.tag == tag) flushes.now) }
    ensures place { result ≡ position_or_len (λ f. f.tag == tag) flushes.now }
    ensures within { result < length flushes.now }
{
    find_flush(flushes, tag).unwrap_or(0)
}

// Whether one of these flushes is of the disk.
fn is_flushed_now(flushes: &[Flush], pv: u32) -> bool
    ensures { result ≡ list_any (λ f. f.pv == pv) flushes.now }
{
    flushes.iter().any(|f| f.pv == pv)
}

impl FlushPlan {
    /// A plan over so many disks that holds nothing. Only memory can be wanting.
    pub fn new(alloc: Global, disks: u32) -> Result<Self, AllocError>
        ensures { IfOk result (λ plan. plan ≡ new_plan disks) }
    {
        let none = Marks {
            written: 0,
            ended: 0,
            stable: 0,
        };
        Ok(FlushPlan {
            last: IndexMap::new(alloc),
            marks: vec![in alloc; none; disks as usize]?,
            flushes: Vec::new(alloc),
            held: 0,
            spare: 0,
            spare_flushes: 0,
        })
    }

    /// Makes at least so many writes and so many flushes spare. Only memory can be wanting.
    pub fn reserve(&mut self, writes: u64, flushes: u64) -> Result<(), AllocError>
        ensures ok { OnOk result (self.new ≡ record self.old { spare = max writes self.old.spare; spare_flushes = max flushes self.old.spare_flushes }) }
        ensures err { OnErr result (self.new ≡ self.old) }
    {
        let spare = writes.max(self.spare);
        let spare_flushes = flushes.max(self.spare_flushes);
        self.held.checked_add(spare).ok_or(AllocError)?;
        self.last.reserve(spare as usize)?;
        self.flushes.reserve(spare_flushes as usize)?;
        self.spare = spare;
        self.spare_flushes = spare_flushes;
        Ok(())
    }

    /// A write of this number on this disk completed well. It uses up a spare write.
    pub fn wrote(&mut self, number: u64, pv: u32)
        requires spare { 0 < self.old.spare }
        requires disk { pv < length self.old.marks }
        ensures { self.new ≡ after_wrote self.old number pv }
    {
        self.held += 1;
        self.spare -= 1;
        self.marks[pv as usize].written = self.held;
        match self.last.insert(Write { number, pv }, self.held) {
            Ok(_) => {}
            Err(_) => unreachable!(),
        }
    }

    /// The writes of this number on this disk aren't held any more, if one is: none will be asked for.
    pub fn forget(&mut self, number: u64, pv: u32)
        ensures after { self.new ≡ after_forgot self.old number pv }
        ensures forgotten { IsFalse (is_stable self.new number pv) }
        ensures others { SaysOfOthers self.old self.new number pv }
    {
        self.last.swap_remove(&Write { number, pv });
    }

    /// A flush of this disk was submitted under this tag. It uses up a spare flush until it ends.
    pub fn submitted(&mut self, pv: u32, tag: u64)
        requires disk { pv < length self.old.marks }
        requires spare { 0 < self.old.spare_flushes }
        requires fresh { IsFalse (is_in_flight self.old tag) }
        ensures { self.new ≡ after_submitted self.old pv tag }
    {
        let after = self.held;
        self.flushes.push_reserved(Flush { tag, pv, after });
        self.spare_flushes -= 1;
    }

    /// The flush with this tag completed well.
    pub fn flushed(&mut self, tag: u64)
        requires { IsTrue (is_in_flight self.old tag) }
        ensures { self.new ≡ after_flushed self.old tag }
    {
        let at = place_of(&self.flushes, tag);
        let flush = self.flushes.remove(at);
        let marks = &mut self.marks[flush.pv as usize];
        marks.ended = marks.ended.max(flush.after);
        marks.stable = marks.stable.max(flush.after);
        self.spare_flushes += 1;
    }

    /// The flush with this tag failed.
    pub fn lost(&mut self, tag: u64)
        requires { IsTrue (is_in_flight self.old tag) }
        ensures { self.new ≡ after_lost self.old tag }
    {
        let at = place_of(&self.flushes, tag);
        let flush = self.flushes.remove(at);
        let marks = &mut self.marks[flush.pv as usize];
        marks.ended = marks.ended.max(flush.after);
        self.spare_flushes += 1;
    }

    /// Whether a write of this number on this disk is held, and a flush that was submitted after the completion of the last
    /// of them has completed well.
    pub fn stable(&self, number: u64, pv: u32) -> bool
        requires { pv < length self.now.marks }
        ensures { result ≡ is_stable self.now number pv }
    {
        match self.last.get(&Write { number, pv }) {
            Some(place) => *place <= self.marks[pv as usize].stable,
            None => false,
        }
    }

    /// Whether a write of this number on this disk is held, and a flush that was submitted after the completion of the last
    /// of them has ended, well or not.
    pub fn ended(&self, number: u64, pv: u32) -> bool
        requires { pv < length self.now.marks }
        ensures { result ≡ is_ended self.now number pv }
    {
        match self.last.get(&Write { number, pv }) {
            Some(place) => *place <= self.marks[pv as usize].ended,
            None => false,
        }
    }

    /// Whether a write on this disk has completed well, no flush of the disk that was submitted after it has ended, well or
    /// not, and no flush of the disk is in flight.
    pub fn wants(&self, pv: u32) -> bool
        requires { pv < length self.now.marks }
        ensures { result ≡ is_wanted self.now pv }
    {
        let marks = &self.marks[pv as usize];
        marks.ended < marks.written && !is_flushed_now(&self.flushes, pv)
    }

    /// The flush of the disk that is in flight, the oldest of them.
    pub fn flight(&self, pv: u32) -> Option<Flush>
        ensures { result ≡ flight_of self.now pv }
    {
        match find_flight(&self.flushes, pv) {
            Some(at) => Some(self.flushes[at]),
            None => None,
        }
    }

    /// The places of the disk's last write, of the last one that a flush which has ended serves, and of the last one that is
    /// stable.
    pub fn marks(&self, pv: u32) -> Marks
        requires { pv < length self.now.marks }
        ensures { result ≡ marks_of self.now pv }
    {
        self.marks[pv as usize]
    }
}
