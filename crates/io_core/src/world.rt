//! The world.
ghost use Rattle.std.specs.Prelude.{◌≡◌, IfOk, IfSome, None, length, true};
ghost use Rattle.std.specs.FinSet as set;
ghost use Rattle.command_table.specs.declared.command.Command.TheVariants.{Wait};
ghost use Rattle.line_table.specs.Steps.{no_lines};
ghost use Rattle.disk_model.specs.Calls.{Completes};
ghost use Rattle.disk_model.specs.State.{State};
ghost use Rattle.volume_rules.specs.Rules.{IsAccepted};
ghost use Rattle.flush_waits.specs.Waits.{new_waits};
ghost use Rattle.piece_table.specs.Pieces.{no_pieces};
ghost use Rattle.world_acts.specs.Acts.{world};
ghost use Rattle.world_acts.specs.OpenLines.{no_opens};
ghost use Rattle.world_acts.specs.Orderly.{AreReleased};
ghost use Rattle.world_acts.specs.Volumes.{rows_at_opening};
ghost use Rattle.io_core.specs.Events.{BeginsIn, Follows};
ghost use Rattle.line_plans.specs.Plans.{MayBeBegun, no_room};
ghost use Rattle.io_core.specs.Rest.{IsCalm, IsKept, no_one};

pub use crate::beginning::Begun;
use crate::beginning::begin;
use crate::data_line::DataLine;
use crate::ending::{end_piece, release_all};
use crate::flushing::submit_flushes;
use crate::starting::start_ready;
use command_table::Command;
use disk_model::{Done, Op, Shelf};
use flush_waits::FlushWaits;
use line_plans::{Plan, prepare};
use line_table::{Answers, Journal, LineTable};
use lvm_script::Line;
use piece_table::PieceTable;
use sector_base::PvSet;
use std::alloc::{AllocError, Global};
use std::marker::Model;
use vg_check::Checked;
use vg_found::{Found, Whole};
use world_acts::{Core, OpenLines, Room, VolumeRow, Volumes, rows_of};

/// There was no memory for the line, which comes back.
#[derive(Drop)]
pub struct BeginRefused {
    pub line: DataLine,
}

/// There was no memory for a world. What it was to be made of comes back.
#[derive(Drop)]
pub struct OpenRefused<S> {
    pub whole: Whole,
    pub shelf: S,
}

/// What is left of a world at its end.
#[derive(Drop)]
pub struct Finished<S> {
    pub shelf: S,
    pub journal: Journal,
    pub answers: Answers,
}

/// Volumes over a shelf, and the lines under way. Nothing is left to do of them until an operation completes or a line is begun.
/// Contracts see it as the record `WorldOn`.
pub struct World<S: Shelf> {
    shelf: S,
    core: Core,
}

impl<S: Shelf> Model for World<S> {
    ghost use Rattle.world_acts.specs.contracts.state.Core as core_row;
    ghost use Rattle.world_acts.specs.Acts.{world};
    ghost use Rattle.io_core.specs.Rest.{IsKept};
    ghost use Rattle.io_core.specs.Worlds.{WorldOn, world_code};

    ghost Value = { WorldOn S };

    ghost coded = { world_code S.code core_row.the_row.coded };

    ghost view = { λ w. record { shelf = w.shelf; core = w.core } };

    ghost invariant = { λ w. IsKept (world (S.state w.shelf) w.core) };
}

// What of a core takes memory.
#[derive(Drop)]
struct Parts {
    rows: Vec<VolumeRow>,
    lines: LineTable,
    pieces: PieceTable,
    waits: FlushWaits,
}

// The group in force is one that keeps all rules, so this does nothing.
fn see_accepted(group: &Option<Checked>)
    ensures { IfSome group.now IsAccepted }
{
    if let Some(checked) = group {
        checked.group();
    }
}

// Parts of what was found, in which nothing was begun. Only memory can be wanting.
fn parts_of(alloc: Global, whole: &Whole, disks: u32) -> Result<Parts, AllocError>
    requires { IfSome whole.now.group IsAccepted }
    ensures { IfOk result (λ parts. (parts.rows.items ≡ rows_at_opening whole.now.group) × (parts.lines ≡ no_lines) × (parts.pieces ≡ no_pieces)
        × (parts.waits ≡ new_waits disks (length parts.rows.items))) }
{
    let rows = rows_of(alloc, &whole.found().group)?;
    let volumes = rows.len() as u32;
    Ok(Parts {
        rows,
        lines: LineTable::new(alloc)?,
        pieces: PieceTable::new(alloc)?,
        waits: FlushWaits::new(alloc, disks, volumes)?,
    })
}

impl<S: Shelf> World<S> {
    ghost use Rattle.std.specs.Prelude.{◌≡◌, ◌≤◌, ◌<◌, IfErr, IfOk, MatchBool, None, [], is_none, length, not, false};
    ghost use Rattle.std.specs.List.{list_any};
    ghost use Rattle.line_table.specs.Steps.{is_open};
    ghost use Rattle.io_session.specs.Events.{Completes as CompletesOne, Idles, RefusesLine};
    ghost use Rattle.world_acts.specs.Acts.{left_in, world};
    ghost use Rattle.io_core.specs.Events.{IsBegunAs, Makes};
    ghost use Rattle.io_core.specs.Rest.{IsKept, LiesOn};
    ghost use Rattle.io_core.specs.Worlds.{IsOpenedOn};

    /// The world of what a scan found, which lies on the shelf's disks. Only memory can be wanting; then what it was to be made of
    /// comes back.
    pub fn open(alloc: Global, whole: Whole, shelf: S) -> Result<Self, OpenRefused<S>>
        requires idle { (S.state shelf).in_flight ≡ [] }
        requires few { length (S.state shelf).sizes ≤ 64 }
        requires lies { LiesOn (S.state shelf).sizes whole }
        ensures opened { IfOk result (λ w. (w.shelf ≡ shelf) × IsOpenedOn whole (length (S.state shelf).sizes) w.core) }
        ensures kept { IfOk result (λ w. IsKept (world (S.state w.shelf) w.core)) }
        ensures refused { IfErr result (λ refused. (refused.whole ≡ whole) × (refused.shelf ≡ shelf)) }
    {
        see_accepted(&whole.found().group);
        let parts = match parts_of(alloc, &whole, shelf.count()) {
            Ok(parts) => parts,
            Err(AllocError) => return Err(OpenRefused { whole, shelf }),
        };
        let core = core_of(alloc, whole, parts);
        Ok(World { shelf, core })
    }

    /// Whether the line may begin: no line waits for all others.
    pub fn may_begin(&self, _line: &DataLine) -> bool
        ensures { result ≡ is_none self.now.core.barrier }
    {
        self.core.barrier.is_none()
    }

    /// Begins the line, and says how it was begun. Only memory can be wanting; then the line comes back, and nothing changes but what
    /// is spare.
    pub fn begin(&mut self, line: DataLine) -> Result<Begun, BeginRefused>
        requires { self.old.core.barrier ≡ None }
        ensures begun { IfOk result (λ begun. IsBegunAs (world (S.state self.old.shelf) self.old.core) line begun (world (S.state self.new.shelf) self.new.core)) }
        ensures refused { IfErr result (λ refused. (refused.line ≡ line)
            × Makes (world (S.state self.old.shelf) self.old.core) (RefusesLine line) (world (S.state self.new.shelf) self.new.core)) }
    {
        match prepare(&mut self.shelf, &mut self.core, line.line()) {
            Ok(plan) => {
                let line = line.into_line();
                Ok(begin_prepared(&mut self.shelf, &mut self.core, line, plan))
            }
            Err(AllocError) => Err(BeginRefused { line }),
        }
    }

    /// Completes an operation that is ready, and says whether one was.
    pub fn turn(&mut self) -> bool
        ensures { MatchBool result
            (Makes (world (S.state self.old.shelf) self.old.core) CompletesOne (world (S.state self.new.shelf) self.new.core)
            × (left_in (world (S.state self.new.shelf) self.new.core) < left_in (world (S.state self.old.shelf) self.old.core)))
            (Makes (world (S.state self.old.shelf) self.old.core) Idles (world (S.state self.new.shelf) self.new.core)) }
    {
        match self.shelf.reap() {
            Some(done) => {
                take(&mut self.shelf, &mut self.core, done);
                true
            }
            None => false,
        }
    }

    /// Waits until an operation completes, and says whether one was in flight. Where none was, each line that was begun is answered,
    /// and any line may begin.
    pub fn settle(&mut self) -> bool
        ensures made { MatchBool result
            (Makes (world (S.state self.old.shelf) self.old.core) CompletesOne (world (S.state self.new.shelf) self.new.core)
            × (left_in (world (S.state self.new.shelf) self.new.core) < left_in (world (S.state self.old.shelf) self.old.core)))
            (Makes (world (S.state self.old.shelf) self.old.core) Idles (world (S.state self.new.shelf) self.new.core)) }
        ensures answered { result ≡ false → ((S.state self.old.shelf).in_flight ≡ []) × (list_any is_open self.old.core.lines.answers ≡ false) × (self.old.core.barrier ≡ None) }
    {
        self.core.pieces.agree();
        match self.shelf.settle() {
            Some(done) => {
                take(&mut self.shelf, &mut self.core, done);
                true
            }
            None => false,
        }
    }

    /// Whether each line that was begun is answered.
    pub fn is_done(&self) -> bool
        ensures { result ≡ not (list_any is_open self.now.core.lines.answers) }
    {
        self.core.lines.is_done()
    }

    /// What was done of the lines.
    pub fn journal(&self) -> &Journal
        ensures { result.now.items ≡ self.now.core.lines.journal }
    {
        self.core.lines.journal()
    }

    /// Of each line that was begun its number and its answer, if it has one.
    pub fn answers(&self) -> &Answers
        ensures { result.now.items ≡ self.now.core.lines.answers }
    {
        self.core.lines.answers()
    }

    /// The shelf.
    pub fn shelf(&self) -> &S
        ensures { result.now ≡ self.now.shelf }
    {
        &self.shelf
    }

    /// What is left of the world.
    pub fn finish(self) -> Finished<S>
        ensures shelf { result.shelf ≡ self.shelf }
        ensures journal { result.journal.items ≡ self.core.lines.journal }
        ensures answers { result.answers.items ≡ self.core.lines.answers }
    {
        let World { shelf, core } = self;
        let (journal, answers) = core.lines.into_parts();
        Finished {
            shelf,
            journal,
            answers,
        }
    }
}

// The core of what was found, of which nothing was begun.
fn core_of(alloc: Global, whole: Whole, parts: Parts) -> Core
    ensures volumes { result.volumes ≡ record { group = whole.group; disk_of = whole.disk_of; rows = parts.rows } }
    ensures tables { (result.lines ≡ parts.lines) × (result.opens ≡ no_opens) × (result.pieces ≡ parts.pieces) × (result.waits ≡ parts.waits) }
    ensures rest { (result.failed ≡ set.empty) × (result.barrier ≡ None) × (result.owed ≡ no_room) }
{
    let Found { group, disk_of, .. } = whole.into_found();
    let Parts {
        rows,
        lines,
        pieces,
        waits,
    } = parts;
    Core {
        alloc,
        lines,
        opens: OpenLines::new(alloc),
        volumes: Volumes {
            group,
            disk_of,
            rows,
        },
        pieces,
        waits,
        failed: PvSet::new(),
        barrier: None,
        owed: Room::NONE,
    }
}

// Whether the line waits for all lines before it.
fn waits_for_all(command: &Command) -> bool
    ensures wait { result ≡ true → command.now ≡ Wait }
    ensures all { command.now ≡ Wait → result ≡ true }
{
    matches!(command, Command::Wait)
}

// Begins the line as it was prepared, and submits the flushes that are wanted then.
fn begin_prepared<S: Shelf>(shelf: &mut S, core: &mut Core, line: Line, plan: Plan) -> Begun
    requires kept { IsKept (world (S.state shelf.old) core.old) }
    requires free { core.old.barrier ≡ None }
    requires may { MayBeBegun (world (S.state shelf.old) core.old) line plan }
    ensures begins { BeginsIn (world (S.state shelf.old) core.old) line result (world (S.state shelf.new) core.new) }
    ensures kept { IsKept (world (S.state shelf.new) core.new) }
{
    let is_wait = waits_for_all(&line.command);
    let begun = begin(shelf, core, line, plan, is_wait);
    submit_flushes(shelf, core);
    begun
}

// The operation has completed: what follows is done.
fn take<S: Shelf>(shelf: &mut S, core: &mut Core, done: Done)
    requires { (before : State) × IsKept (world before core.old) × Completes before done (S.state shelf.old) }
    ensures kept { IsKept (world (S.state shelf.new) core.new) }
    ensures follows { (before : State) → IsKept (world before core.old) → Completes before done (S.state shelf.old)
        → Follows (world before core.old) done (S.state shelf.old) (world (S.state shelf.new) core.new) }
{
    land(shelf, core, done);
    start_ready(shelf, core);
    submit_flushes(shelf, core);
}

// The operation ends: its piece does, or what its flush served waits no more.
fn land<S: Shelf>(shelf: &S, core: &mut Core, done: Done)
    requires { (before : State) × IsKept (world before core.old) × Completes before done (S.state shelf.now) }
    ensures follows { (before : State) → IsKept (world before core.old) → Completes before done (S.state shelf.now)
        → Follows (world before core.old) done (S.state shelf.now) (world (S.state shelf.now) core.new) }
    ensures calm { IsCalm no_one no_one core.new }
    ensures released { AreReleased core.new }
{
    let Done { tag, op, well } = done;
    match core.pieces.lands(tag) {
        Some(owner) => end_piece(shelf, core, owner.piece, op, well),
        None => match op {
            Op::Flush(pv) => {
                core.waits.ended(tag, well);
                release_all(shelf, core, pv, well);
            }
            Op::Read(_span, _buffer) => unreachable!(),
            Op::Write(_span, _sectors) => unreachable!(),
        },
    }
}
