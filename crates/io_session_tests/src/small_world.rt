//! A small world over a row of disks: each line writes the first sector of the first disk, and at most three writes are in
//! flight.
ghost use Rattle.std.specs.Prelude.{◌≡◌, ◌==◌, ◌+◌, ◌<◌, [], length, slice_index_or, nat_lt, MatchBool};
ghost use Rattle.io_session_tests.specs.SmallWorlds.{Happens, IsAsFull, IsOneFewer};

use disk_model::{Op, Shelf};
use io_session::{BeginRefused, Driven};
use line_table::{EntryKind, JournalEntry};
use lvm_script::Line;
use sector_base::{Piece, Sectors, Span};
use std::alloc::{AllocError, Global};
use std::marker::Model;

/// What a small world has memory for, and how many commits its move wants.
#[derive(Clone, Copy, Drop)]
pub struct Limits {
    /// So many lines can begin.
    pub lines: usize,
    /// So many commits are due from the start.
    pub commits: u64,
    /// Whether there is memory for a commit.
    pub has_commit_memory: bool,
}

/// A small world.
#[derive(Drop)]
pub struct SmallWorld<S: Shelf> {
    pub shelf: S,
    pub lines: Vec<Line>,
    pub journal: Vec<JournalEntry>,
    pub commits_due: u64,
    pub is_halted: bool,
    limits: Limits,
    in_flight: u64,
    completed: u64,
    alloc: Global,
}

impl<S: Shelf> Model for SmallWorld<S> {
    ghost use Rattle.std.specs.Prelude.{◌≡◌, ◌≤◌, ◌<◌, ◌+◌, length, slice_index_or, vec_capacity, vec_len};
    ghost use Rattle.io_session_tests.specs.SmallWorlds.{Small};

    ghost Value = { Small };

    ghost view = { λ w. record { begun = w.lines.items; entries = w.journal.items; flying = w.in_flight; spare = (S.state w.shelf).spare_ops; due = w.commits_due } };

    // The writes in flight are counted, each has room for its entry, and the first disk has a sector.
    ghost invariant = { λ w. (length (S.state w.shelf).in_flight ≡ w.in_flight) × (vec_len w.journal + w.in_flight ≤ vec_capacity w.journal)
        × (w.in_flight ≤ 3) × (0 < length (S.state w.shelf).sizes) × (0 < slice_index_or (S.state w.shelf).sizes 0 0) };
}

// An entry of no line in particular.
fn entry(kind: EntryKind) -> JournalEntry {
    JournalEntry {
        kind,
        line: 0,
        piece: Piece {
            volume: 0,
            first: 0,
            count: 0,
            write: false,
        },
        moment: 0,
    }
}

// Completes an operation that is ready, and says whether there was one.
fn reap_one<S: Shelf>(shelf: &mut S) -> bool
    ensures { MatchBool result (IsOneFewer (S.state shelf.old) (S.state shelf.new)) (IsAsFull (S.state shelf.old) (S.state shelf.new)) }
{
    match shelf.reap() {
        Some(_) => true,
        None => false,
    }
}

// Waits until an operation completes, and says whether one was in flight.
fn settle_one<S: Shelf>(shelf: &mut S) -> bool
    ensures cases { MatchBool result (IsOneFewer (S.state shelf.old) (S.state shelf.new)) (IsAsFull (S.state shelf.old) (S.state shelf.new)) }
    ensures none { MatchBool result (0 < length (S.state shelf.old).in_flight) (length (S.state shelf.old).in_flight ≡ 0) }
{
    match shelf.settle() {
        Some(_) => true,
        None => false,
    }
}

impl<S: Shelf> SmallWorld<S> {
    /// A world of no line on these disks.
    pub fn new(alloc: Global, shelf: S, limits: Limits) -> Self
        requires idle { (S.state shelf).in_flight ≡ [] }
        requires disk { 0 < length (S.state shelf).sizes }
        requires sector { 0 < slice_index_or (S.state shelf).sizes 0 0 }
        ensures { result.begun ≡ [] }
    {
        SmallWorld {
            shelf,
            lines: Vec::new(alloc),
            journal: Vec::new(alloc),
            commits_due: limits.commits,
            is_halted: false,
            limits,
            in_flight: 0,
            completed: 0,
            alloc,
        }
    }
}

impl<S: Shelf> Driven<Line> for SmallWorld<S> {
    ghost begun = { λ w. w.begun };

    ghost journal = { λ w. w.entries };

    ghost in_flight = { λ w. w.flying };

    ghost left = { λ w. w.flying + w.due };

    ghost is_due = { λ w. nat_lt 0 w.due };

    ghost is_done = { λ w. w.flying == 0 };

    ghost allows = { λ w line. nat_lt w.flying 3 };

    ghost makes = { Happens };

    fn may_begin(&self, _line: &Line) -> bool {
        self.in_flight < 3
    }

    fn begin(&mut self, line: Line) -> Result<(), BeginRefused<Line>> {
        let room = self.in_flight as usize + 2;
        let Ok(contents) = Sectors::zeroed(self.alloc, 1) else {
            return Err(BeginRefused { line });
        };
        if self.shelf.reserve(1, 1).is_err() || self.journal.reserve(room).is_err() {
            return Err(BeginRefused { line });
        }
        if self.lines.len() >= self.limits.lines || self.lines.reserve(1).is_err() {
            return Err(BeginRefused { line });
        }
        let first = Span {
            pv: 0,
            first: 0,
            count: 1,
        };
        let _tag = self.shelf.submit(Op::Write(first, contents));
        self.lines.push_reserved(line);
        self.journal.push_reserved(entry(EntryKind::Begun));
        self.in_flight += 1;
        Ok(())
    }

    fn is_due(&self) -> bool {
        0 < self.commits_due
    }

    fn tend(&mut self) -> Result<(), AllocError> {
        if self.commits_due == 0 {
            return Ok(());
        }
        self.shelf.reserve(8, 0)?;
        if !self.limits.has_commit_memory {
            return Err(AllocError);
        }
        self.commits_due -= 1;
        Ok(())
    }

    fn halt_move(&mut self) {
        if 0 < self.commits_due {
            self.commits_due -= 1;
            self.is_halted = true;
        }
    }

    fn turn(&mut self) -> bool {
        if !reap_one(&mut self.shelf) {
            return false;
        }
        self.in_flight -= 1;
        self.completed = self.completed.saturating_add(1);
        self.journal.push_reserved(entry(EntryKind::Took));
        true
    }

    fn settle(&mut self) -> bool {
        if !settle_one(&mut self.shelf) {
            return false;
        }
        self.in_flight -= 1;
        self.completed = self.completed.saturating_add(1);
        self.journal.push_reserved(entry(EntryKind::Took));
        true
    }

    fn is_done(&self) -> bool {
        self.in_flight == 0
    }

    fn progress(&self) -> Option<(u64, u64)> {
        Some((self.completed, 100))
    }
}
