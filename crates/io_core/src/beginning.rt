//! A line is begun, as it was prepared.
ghost use Rattle.std.specs.Prelude.{◌≡◌, ◌⊎◌, ◌≤◌, ◌<◌, ◌==◌, ◌+◌, ◌^◌, ℕ, [], ◌∷◌, All, IfSome, IsTrue, None, false, is_some, length, map};
ghost use Rattle.std.specs.Prelude.{slice_get, true};
ghost use Rattle.std.specs.FinSet as set;
ghost use Rattle.std.specs.Option.{option_map_or};
ghost use Rattle.command_table.specs.declared.command.Command.TheVariants.{Wait};
ghost use Rattle.lvm_script.specs.declared.line.Line.{Line as LineRecord};
ghost use Rattle.data_lines.specs.DataLines.{is_flush};
ghost use Rattle.line_plans.specs.declared.preparing.NewPiece.{NewPiece as NewRecord};
ghost use Rattle.claim_table.specs.Claims.{IsEntry};
ghost use Rattle.claim_table.specs.declared.claim.Entry.TheVariants as entries;
ghost use Rattle.flush_plan.specs.Plans.{marks_of};
ghost use Rattle.line_answers.specs.declared.answer.Answer.TheVariants.{PvFailed};
ghost use Rattle.piece_table.specs.Pieces.{claim_of, may_start};
ghost use Rattle.world_acts.specs.declared.room.Room.{Room as RoomRecord};
ghost use Rattle.world_acts.specs.Acts.{IsBorne, IsLost, IsNewest, MayBegin, Prepares, TellsDisk, world};
ghost use Rattle.world_acts.specs.OpenLines.{is_whole, left_of, open_at, open_of};
ghost use Rattle.world_acts.specs.Orderly.{AreReleased, IsOrderly};
ghost use Rattle.world_acts.specs.Rooms.{IsCounted, more, piece_room};
ghost use Rattle.world_acts.specs.Steps.{after_awaits, after_begins, after_enters, after_line_fails, await_room};
ghost use Rattle.world_acts.specs.Volumes.{lv_of};
ghost use Rattle.io_core.specs.Beginning.{AwaitsOn, MayCarryOn};
ghost use Rattle.io_core.specs.Events.{BeginsIn, IsPreparedAndGoes, begun_as};
ghost use Rattle.line_plans.specs.Plans.{AreTickets, MayBeBegun, MayBeOf, flushes_room, pieces_room};
ghost use Rattle.io_core.specs.Rest.{IsCalm, IsSettled, NoneReady, SameLines, just, no_one};

use crate::answering::close_line;
use crate::starting::start;
use claim_table::{By, Entry, claims_stay_apart};
use disk_model::Shelf;
use flush_waits::{Awaited, Ticket, Waiter};
use line_answers::Answer;
use line_plans::{NewPiece, Plan};
use lvm_script::Line;
use world_acts::{Core, OpenLine, Room};

/// How a line was begun.
#[derive(Clone, Copy, Debug, Drop, PartialEq, Eq)]
pub enum Begun {
    /// It is answered.
    Answered,
    /// No piece of it waits.
    Started,
    /// Its first piece that waits conflicts with this.
    Deferred(By),
}

/// Begins the line. One that waits for all others does so where another is open.
pub(crate) fn begin<S: Shelf>(
    shelf: &mut S,
    core: &mut Core,
    line: Line,
    plan: Plan,
    is_wait: bool,
) -> Begun
    requires orderly { IsOrderly (world (S.state shelf.old) core.old) }
    requires settled { IsSettled core.old }
    requires free { core.old.barrier ≡ None }
    requires may { MayBeBegun (world (S.state shelf.old) core.old) line plan }
    requires waits { is_wait ≡ true → is_whole plan.opened.work ≡ true }
    requires holds { is_wait ≡ true → line.command ≡ Wait }
    requires all { line.command ≡ Wait → is_wait ≡ true }
    ensures begins { BeginsIn (world (S.state shelf.old) core.old) line result (world (S.state shelf.new) core.new) }
    ensures settled { IsSettled core.new }
{
    let Plan {
        opened,
        pieces,
        tickets,
    } = plan;
    let place = open_line(shelf, core, line, opened);
    if is_wait && core.lines.open_count() > 1 {
        core.barrier = Some(place);
        return Begun::Started;
    }
    let first = carry_on(shelf, core, place, pieces, tickets);
    how_begun(core, place, first)
}

// What becomes of the line whose first piece that waits conflicts with this.
fn how_begun(core: &Core, line: u32, first: Option<By>) -> Begun
    ensures { result ≡ begun_as first (is_some (open_at core.now.opens line)) }
{
    match first {
        Some(by) => Begun::Deferred(by),
        None if core.opens.is_open(line) => Begun::Started,
        None => Begun::Answered,
    }
}

// The line, of which nothing is left so far, waits for its flushes, its pieces enter, and it is answered where nothing of it is left.
// What the first piece that waits conflicts with comes back.
fn carry_on<S: Shelf>(
    shelf: &mut S,
    core: &mut Core,
    line: u32,
    pieces: Vec<NewPiece>,
    tickets: Vec<Ticket>,
) -> Option<By>
    requires may { MayCarryOn (world (S.state shelf.old) core.old) line pieces.items (length tickets.items) }
    ensures carried { IsPreparedAndGoes line (map (λ (new : NewRecord). new.piece) pieces.items) result (world (S.state shelf.old) core.old)
        (world (S.state shelf.new) core.new) }
    ensures settled { IsSettled core.new }
{
    await_flushes(shelf, core, line, tickets);
    let first = enter_pieces(shelf, core, line, pieces);
    close_line(shelf, core, line);
    first
}

// The line is begun, and open. Its place comes back.
fn open_line<S: Shelf>(shelf: &S, core: &mut Core, line: Line, opened: OpenLine) -> u32
    requires orderly { IsOrderly (world (S.state shelf.now) core.old) }
    requires may { MayBegin (world (S.state shelf.now) core.old) opened }
    ensures place { result ≡ length core.old.lines.begun }
    ensures after { core.new ≡ after_begins core.old line opened (S.state shelf.now).steps }
{
    core.owed.grow(Room::of_line(&opened));
    let place = core.lines.begin_on(line, opened.key, shelf.steps());
    core.opens.begin(opened);
    place
}

// The line waits on each disk for the last write to its volume.
fn await_flushes<S: Shelf>(shelf: &S, core: &mut Core, line: u32, tickets: Vec<Ticket>)
    requires orderly { IsOrderly (world (S.state shelf.now) core.old) }
    requires opened { IsTrue (is_some (open_at core.old.opens line)) }
    requires tickets { AreTickets core.old.volumes (S.state shelf.now).sizes (open_of core.old.opens line) (slice_get core.old.lines.begun line) (length tickets.items) }
    requires other { core.old.barrier ≡ None }
    requires room { IsBorne (world (S.state shelf.now) core.old) (more core.old.owed (flushes_room (length tickets.items))) }
    requires few { left_of core.old.opens line + length tickets.items < 2 ^ 64 }
    requires newest { IsNewest core.old line }
    ensures prepares { Prepares line [] None (world (S.state shelf.now) core.old) (world (S.state shelf.now) core.new) }
    ensures none { length tickets.items ≡ 0 → core.new ≡ core.old }
    ensures calm { IsCalm no_one (just line) core.old → IsCalm no_one (just line) core.new }
    ensures released { AreReleased core.old → AreReleased core.new }
    ensures opens { SameLines core.old.opens core.new.opens }
    ensures pieces { core.new.pieces ≡ core.old.pieces }
    ensures barrier { core.new.barrier ≡ None }
    ensures left { left_of core.new.opens line ≤ left_of core.old.opens line + length tickets.items }
    ensures awaits { (pv : ℕ) → pv < length tickets.items → AwaitsOn core.new line pv }
{
    let mut rest = tickets;
    let mut pv = 0;
    while let Some(ticket) = rest.pop() {
        await_flush(shelf, core, line, pv, ticket);
        pv += 1;
    }
}

// The line waits for the last write to its volume on this disk, where that isn't stable. Where the disk has failed, or the flush
// has, it fails.
fn await_flush<S: Shelf>(shelf: &S, core: &mut Core, line: u32, pv: u32, ticket: Ticket)
    requires orderly { IsOrderly (world (S.state shelf.now) core.old) }
    requires opened { IsTrue (is_some (open_at core.old.opens line)) }
    requires whole { is_whole (open_of core.old.opens line).work ≡ true }
    requires flushes { option_map_or (λ (l : LineRecord). is_flush l.command) (slice_get core.old.lines.begun line) false ≡ true }
    requires well { IfSome (open_of core.old.opens line).failure TellsDisk }
    requires stands { is_some (lv_of core.old.volumes (open_of core.old.opens line).key) ≡ true }
    requires disk { pv < length core.old.waits.disks }
    requires other { core.old.barrier ≡ None }
    requires room { IsBorne (world (S.state shelf.now) core.old) (more core.old.owed (flushes_room 1)) }
    requires few { left_of core.old.opens line + 1 < 2 ^ 64 }
    requires newest { IsNewest core.old line }
    ensures prepares { Prepares line [] None (world (S.state shelf.now) core.old) (world (S.state shelf.now) core.new) }
    ensures well { IfSome (open_of core.new.opens line).failure TellsDisk }
    ensures room { (r : RoomRecord) → IsBorne (world (S.state shelf.now) core.old) (more core.old.owed (more (flushes_room 1) r)) → IsBorne (world (S.state shelf.now) core.new) (more core.new.owed r) }
    ensures calm { IsCalm no_one (just line) core.old → IsCalm no_one (just line) core.new }
    ensures released { AreReleased core.old → AreReleased core.new }
    ensures opens { SameLines core.old.opens core.new.opens }
    ensures pieces { core.new.pieces ≡ core.old.pieces }
    ensures barrier { core.new.barrier ≡ None }
    ensures left { left_of core.new.opens line ≤ left_of core.old.opens line + 1 }
    ensures lines { core.new.lines ≡ core.old.lines }
    ensures here { AwaitsOn core.new line pv }
    ensures others { (other : ℕ) → (pv == other) ≡ false → AwaitsOn core.old line other → AwaitsOn core.new line other }
{
    let last = core.waits.dirty(core.opens.get(line).key, pv);
    await_write(core, line, pv, last, ticket);
}

// The line waits for the write at this place of the disk's, where that isn't stable. Where its flush has failed, or the disk, it fails.
fn await_write(core: &mut Core, line: u32, pv: u32, place: u64, ticket: Ticket)
    requires opened { IsTrue (is_some (open_at core.old.opens line)) }
    requires disk { pv < length core.old.waits.disks }
    requires completed { place ≤ core.old.waits.plan.held }
    requires room { 0 < core.old.waits.room }
    requires owed { core.old.owed.ops + 1 < 2 ^ 64 }
    requires few { left_of core.old.opens line + 1 < 2 ^ 64 }
    ensures { ((place ≤ (marks_of core.old.waits.plan pv).stable) × (core.new ≡ core.old))
        ⊎ ((((marks_of core.old.waits.plan pv).stable < place) × IsLost core.old pv × (core.new ≡ after_line_fails core.old line (PvFailed pv)))
        ⊎ (((marks_of core.old.waits.plan pv).ended < place) × (core.new ≡ after_awaits core.old line pv place))) }
{
    match core.waits.awaited(pv, place) {
        Awaited::Stable => {}
        Awaited::Lost => core.opens.fail(line, Answer::PvFailed(pv)),
        _ => wait_or_fail(core, line, pv, place, ticket),
    }
}

// It waits for that write, or fails where the disk has failed.
fn wait_or_fail(core: &mut Core, line: u32, pv: u32, place: u64, ticket: Ticket)
    requires opened { IsTrue (is_some (open_at core.old.opens line)) }
    requires disk { pv < length core.old.waits.disks }
    requires completed { place ≤ core.old.waits.plan.held }
    requires room { 0 < core.old.waits.room }
    requires owed { core.old.owed.ops + 1 < 2 ^ 64 }
    requires few { left_of core.old.opens line + 1 < 2 ^ 64 }
    ensures { ((set.contains core.old.failed pv ≡ true) × (core.new ≡ after_line_fails core.old line (PvFailed pv)))
        ⊎ (core.new ≡ after_awaits core.old line pv place) }
{
    if core.failed.contains(pv) {
        core.opens.fail(line, Answer::PvFailed(pv));
        return;
    }
    let awaited = core.waits.wait(ticket, Waiter::Line(line), pv, place);
    core.opens.add(line);
    core.owed.ops += flushes_for(awaited);
}

// How many flushes more are owed where something waits so.
fn flushes_for(awaited: Awaited) -> u64
    ensures ops { result ≡ (await_room awaited).ops }
    ensures one { result ≤ 1 }
{
    match awaited {
        Awaited::Unserved => 1,
        Awaited::Stable => 0,
        Awaited::Lost => 0,
        Awaited::Served => 0,
    }
}

// The pieces enter. What the first of them that waits conflicts with comes back.
fn enter_pieces<S: Shelf>(
    shelf: &mut S,
    core: &mut Core,
    line: u32,
    pieces: Vec<NewPiece>,
) -> Option<By>
    requires orderly { IsOrderly (world (S.state shelf.old) core.old) }
    requires opened { IsTrue (is_some (open_at core.old.opens line)) }
    requires each { All (MayBeOf core.old.volumes (S.state shelf.old).sizes (open_of core.old.opens line) (slice_get core.old.lines.begun line)) pieces.items }
    requires room { IsBorne (world (S.state shelf.old) core.old) (more core.old.owed (pieces_room pieces.items)) }
    requires spare { length pieces.items ≤ core.old.pieces.claims.spare }
    requires few { left_of core.old.opens line + length pieces.items < 2 ^ 64 }
    ensures prepares { Prepares line (map (λ (new : NewRecord). new.piece) pieces.items) result (world (S.state shelf.old) core.old) (world (S.state shelf.new) core.new) }
    ensures none { length pieces.items ≡ 0 → core.new ≡ core.old }
    ensures calm { IsCalm no_one (just line) core.old → IsCalm no_one (just line) core.new }
    ensures ready { NoneReady core.old → NoneReady core.new }
    ensures opens { SameLines core.old.opens core.new.opens }
    ensures barrier { core.new.barrier ≡ core.old.barrier }
    ensures waits { core.new.waits ≡ core.old.waits }
{
    let mut rest = pieces;
    rest.reverse();
    let mut first = None;
    while let Some(new) = rest.pop() {
        let by = enter_piece(shelf, core, line, new);
        first = first.or(by);
    }
    first
}

// The piece enters, and starts where it conflicts with nothing; else what it waits for comes back.
fn enter_piece<S: Shelf>(shelf: &mut S, core: &mut Core, line: u32, new: NewPiece) -> Option<By>
    requires orderly { IsOrderly (world (S.state shelf.old) core.old) }
    requires opened { IsTrue (is_some (open_at core.old.opens line)) }
    requires may { MayBeOf core.old.volumes (S.state shelf.old).sizes (open_of core.old.opens line) (slice_get core.old.lines.begun line) new }
    requires room { IsBorne (world (S.state shelf.old) core.old) (more core.old.owed (piece_room new.piece (is_some new.ticket))) }
    requires spare { 0 < core.old.pieces.claims.spare }
    requires few { left_of core.old.opens line + 1 < 2 ^ 64 }
    ensures prepares { Prepares line (new.piece ∷ []) result (world (S.state shelf.old) core.old) (world (S.state shelf.new) core.new) }
    ensures room { (r : RoomRecord) → IsBorne (world (S.state shelf.old) core.old) (more core.old.owed (more (piece_room new.piece (is_some new.ticket)) r))
        → IsBorne (world (S.state shelf.new) core.new) (more core.new.owed r) }
    ensures spare { core.new.pieces.claims.spare + 1 ≡ core.old.pieces.claims.spare }
    ensures calm { IsCalm no_one (just line) core.old → IsCalm no_one (just line) core.new }
    ensures ready { NoneReady core.old → NoneReady core.new }
    ensures opens { SameLines core.old.opens core.new.opens }
    ensures barrier { core.new.barrier ≡ core.old.barrier }
    ensures waits { core.new.waits ≡ core.old.waits }
    ensures left { left_of core.new.opens line ≤ left_of core.old.opens line + 1 }
{
    core.pieces.agree();
    claims_stay_apart();
    let (number, entry) = enter(core, line, new);
    match entry {
        Entry::Started => {
            start(shelf, core, number);
            None
        }
        Entry::Deferred(by) => Some(by),
    }
}

// It enters. Its number comes back, and whether it is to start.
fn enter(core: &mut Core, line: u32, new: NewPiece) -> (u64, Entry)
    requires opened { IsTrue (is_some (open_at core.old.opens line)) }
    requires counted { IsCounted (more core.old.owed (piece_room new.piece (is_some new.ticket))) }
    requires spare { 0 < core.old.pieces.claims.spare }
    requires few { left_of core.old.opens line + 1 < 2 ^ 64 }
    ensures number { result.0 ≡ core.old.pieces.next }
    ensures answer { IsEntry core.old.pieces.claims (claim_of core.old.pieces.next new.piece None) result.1 }
    ensures after { core.new ≡ after_enters core.old line new.piece new.sectors new.ticket result.1 }
    ensures started { result.1 ≡ entries.Started → IsTrue (may_start core.new.pieces result.0) }
{
    let NewPiece {
        piece,
        sectors,
        ticket,
    } = new;
    core.owed.grow(Room::of_piece(&piece, ticket.is_some()));
    core.opens.add(line);
    core.pieces.enter(line, piece, None, sectors, ticket)
}
