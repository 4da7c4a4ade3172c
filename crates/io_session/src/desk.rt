//! A world with the script that it runs, and its steps.
ghost use Rattle.std.specs.Prelude.{◌≡◌, ◌+◌, ◌<◌, ◌≤◌, [], None, true, false, IsTrue, MatchBool, length};
ghost use Rattle.io_session.specs.Worlds.{IsDrained};
ghost use Rattle.io_session.specs.Desks.{Continues, IsNextBlocked, IsQuiescent, MayBeginNext, begins_left, is_finished, queued};

use crate::driven::{BeginRefused, Driven};
use line_table::JournalEntry;
use std::alloc::AllocError;
use std::collections::{LinkedList, VecDeque};
use std::marker::Model;
use std::snapshot::Snapshot;
use table_lock::{Gate, Grows};

/// What a desk was made of. It exists in the proofs alone: no value of it is made.
pub struct DeskOrigin<W, L> {
    pub world: W,
    pub script: LinkedList<L>,
}

/// A world, the line that came back where memory was wanted for one, the further lines of its script that weren't begun, and
/// whether memory was wanted, for a line or for a commit.
#[derive(Drop)]
pub struct Desk<W: Driven<L>, L> {
    pub(crate) world: W,
    pub(crate) refused: Option<L>,
    pub(crate) rest: VecDeque<L>,
    pub(crate) wanted: bool,
    pub(crate) initial: Snapshot<W>,
}

impl<W: Driven<L>, L> Model for Desk<W, L> {
    ghost use Rattle.io_session.specs.Desks.{DeskInvariant, DeskState};

    ghost Value = { DeskState W L };

    ghost view = { λ d. record { initial = d.initial.value; world = d.world; refused = d.refused; rest = d.rest.items; wanted = d.wanted } };

    ghost invariant = { λ d. DeskInvariant W.begun W.allows W.makes (record { initial = d.initial.value; world = d.world; refused = d.refused; rest = d.rest.items; wanted = d.wanted }) };
}

impl<W: Driven<L>, L> Grows for Desk<W, L> {
    ghost use Rattle.io_session.specs.Desks.{script_of};

    type Origin = DeskOrigin<W, L>;

    type LogEntry = JournalEntry;

    ghost origin = { λ d. record { world = d.initial; script = script_of W.begun d } };

    ghost story = { λ d. W.journal d.world };
}

/// What one step did.
pub enum StepOutcome {
    /// An event; where an operation completed, with the progress of the running move.
    Event(Option<(u64, u64)>),
    /// Nothing: no operation was ready.
    Idle,
    /// Nothing: every line is answered that was begun, and no further one is to be begun.
    Finished,
}

/// Tells the gate how far the running move has come, where one runs.
pub fn tell_progress<G: Gate>(gate: &G, progress: Option<(u64, u64)>) {
    if let Some((done, all)) = progress {
        gate.moved(done, all);
    }
}

impl<W: Driven<L>, L: Drop> Desk<W, L> {
    /// A desk with this world, of which no line was begun.
    pub(crate) fn new(world: W, script: VecDeque<L>) -> Self
        requires { W.begun world ≡ [] }
        ensures { result ≡ record { initial = world; world = world; refused = None; rest = script.items; wanted = false } }
    {
        let initial = Snapshot::of(&world);
        Desk {
            world,
            refused: None,
            rest: script,
            wanted: false,
            initial,
        }
    }

    // Whether the next line may begin.
    fn may_begin_next(&self) -> bool
        ensures free { IsTrue result → MayBeginNext W.allows self.now }
        ensures blocked { result ≡ false → IsNextBlocked W.allows self.now }
    {
        if self.wanted {
            return false;
        }
        match self.rest.front() {
            Some(line) => self.world.may_begin(line),
            None => false,
        }
    }

    /// Begins the next line, which may begin. Where memory is wanted for it, it is kept, and no further line is begun.
    pub(crate) fn begin_next(&mut self)
        requires { MayBeginNext W.allows self.old }
        ensures on { Continues W.begun W.journal self.old self.new }
        ensures begun { begins_left self.new < begins_left self.old }
    {
        let Some(line) = self.rest.pop_front() else {
            unreachable!()
        };
        if let Err(BeginRefused { line }) = self.world.begin(line) {
            self.wanted = true;
            self.refused = Some(line);
        }
    }

    // Starts the commit that is due, if one is, or gives the move up where memory is wanted for that, and says so.
    fn tend(&mut self) -> bool
        ensures on { Continues W.begun W.journal self.old self.new }
        ensures rest { begins_left self.new ≤ begins_left self.old }
        ensures left { IsTrue result → W.left self.new.world < W.left self.old.world }
        ensures stays { result ≡ false → (self.new ≡ self.old) × (W.is_due self.old.world ≡ false) }
    {
        if !self.world.is_due() {
            return false;
        }
        if let Err(AllocError) = self.world.tend() {
            self.wanted = true;
            self.world.halt_move();
        }
        true
    }

    // Completes an operation that is ready, and says whether there was one.
    fn turn(&mut self) -> bool
        requires { IsNextBlocked W.allows self.old }
        ensures on { Continues W.begun W.journal self.old self.new }
    {
        self.world.turn()
    }

    // Waits until an operation completes, and says whether one was in flight.
    fn settle(&mut self) -> bool
        requires { IsNextBlocked W.allows self.old }
        ensures on { Continues W.begun W.journal self.old self.new }
        ensures same { (self.new.rest ≡ self.old.rest) × (self.new.wanted ≡ self.old.wanted) }
        ensures left { IsTrue result → W.left self.new.world < W.left self.old.world }
        ensures drained { result ≡ false → IsDrained W.in_flight W.is_due W.is_done W.allows self.old.world self.new.world }
    {
        self.world.settle()
    }

    // Starts the commit that is due, or waits until an operation completes, and says whether there was one of these.
    fn tend_or_settle(&mut self) -> bool
        requires { IsNextBlocked W.allows self.old }
        ensures on { Continues W.begun W.journal self.old self.new }
        ensures rest { begins_left self.new ≤ begins_left self.old }
        ensures left { IsTrue result → W.left self.new.world < W.left self.old.world }
        ensures quiescent { result ≡ false → IsQuiescent W.in_flight W.is_due W.is_done self.new }
    {
        if self.tend() {
            return true;
        }
        self.settle()
    }

    // Whether every line is answered that was begun, and no further one is to be begun.
    fn is_finished(&self) -> bool
        ensures { result ≡ is_finished W.is_done self.now }
    {
        (self.wanted || self.rest.is_empty()) && self.world.is_done()
    }

    /// One event: the next line is begun where it may be, else the commit starts that is due, else an operation completes.
    pub(crate) fn step(&mut self) -> StepOutcome
        ensures { Continues W.begun W.journal self.old self.new }
    {
        if self.may_begin_next() {
            self.begin_next();
            return StepOutcome::Event(None);
        }
        if self.tend() {
            return StepOutcome::Event(None);
        }
        if self.turn() {
            return StepOutcome::Event(self.world.progress());
        }
        if self.is_finished() {
            StepOutcome::Finished
        } else {
            StepOutcome::Idle
        }
    }

    /// Goes on with what was begun until the next line may begin, and says so, or until nothing is left to be done.
    pub(crate) fn advance<G: Gate>(&mut self, gate: &G) -> bool
        ensures on { Continues W.begun W.journal self.old self.new }
        ensures rest { begins_left self.new ≤ begins_left self.old }
        ensures ends { MatchBool result (MayBeginNext W.allows self.new) (IsQuiescent W.in_flight W.is_due W.is_done self.new) }
    {
        loop {
            if self.may_begin_next() {
                return true;
            }
            if !self.tend_or_settle() {
                return false;
            }
            tell_progress(gate, self.world.progress());
        }
    }
}
