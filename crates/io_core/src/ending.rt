//! What becomes of operations that complete.
ghost use Rattle.std.specs.Prelude.{◌≡◌, ◌≤◌, ◌<◌, IfSome, IsTrue, None, false, if◌then◌else◌, is_some, length, nat_le, true};
ghost use Rattle.line_answers.specs.declared.answer.Answer.TheVariants.{PvFailed};
ghost use Rattle.disk_model.specs.Operations.{Lies, work_of};
ghost use Rattle.flush_plan.specs.Plans.{flight_of, marks_of};
ghost use Rattle.flush_waits.specs.declared.ticket.Waiting.{Waiting as WaitingRecord};
ghost use Rattle.piece_table.specs.Pieces.{flying_at, is_among, is_started};
ghost use Rattle.piece_table.specs.Steps.{live_of};
ghost use Rattle.world_acts.specs.Acts.{SettlesAndGoes, core_released, flushed_acts, read_acts, released_at, settling, world, written_acts};
ghost use Rattle.world_acts.specs.OpenLines.{left_of, open_at};
ghost use Rattle.world_acts.specs.Orderly.{AreReleased, IsOrderly, IsTidy};
ghost use Rattle.world_acts.specs.Owners.{piece_work};
ghost use Rattle.world_acts.specs.Volumes.{span_of};
ghost use Rattle.world_acts.specs.Steps.{after_leaves, after_line_fails, after_marks, after_reads, after_wrote};
ghost use Rattle.io_core.specs.Rest.{AreReleasedBut, IsCalm, Settles, first_released, just, no_one};

use crate::answering::close_line;
use crate::starting::fail;
use disk_model::{Op, Shelf};
use flush_waits::{Awaited, Waiter};
use line_answers::Answer;
use piece_table::Stage;
use sector_base::Sectors;
use world_acts::{Core, Room};

/// The operation of the piece has completed, the last that it had in flight. Its line is answered where nothing of it is left.
pub(crate) fn end_piece<S: Shelf>(shelf: &S, core: &mut Core, number: u64, op: Op, well: bool)
    requires orderly { IsOrderly (world (S.state shelf.now) core.old) }
    requires started { IsTrue (is_started core.old.pieces number) }
    requires landed { flying_at core.old.pieces number ≡ 0 }
    requires work { work_of op ≡ piece_work core.old (live_of core.old.pieces number) }
    requires lies { Lies (S.state shelf.now).sizes op }
    requires calm { IsCalm (just number) no_one core.old }
    ensures ends { SettlesAndGoes (settling number op well) (world (S.state shelf.now) core.old) (world (S.state shelf.now) core.new) }
    ensures calm { IsCalm no_one no_one core.new }
    ensures released { AreReleased core.old → AreReleased core.new }
{
    let line = core.pieces.get(number).line;
    settle(shelf, core, number, op, well);
    close_line(shelf, core, line);
}

// What becomes of the piece: it took place, or it fails. Its line isn't answered yet.
fn settle<S: Shelf>(shelf: &S, core: &mut Core, number: u64, op: Op, well: bool)
    requires orderly { IsOrderly (world (S.state shelf.now) core.old) }
    requires started { IsTrue (is_started core.old.pieces number) }
    requires landed { flying_at core.old.pieces number ≡ 0 }
    requires work { work_of op ≡ piece_work core.old (live_of core.old.pieces number) }
    requires lies { Lies (S.state shelf.now).sizes op }
    ensures { Settles (world (S.state shelf.now) core.old) number (settling number op well) (world (S.state shelf.now) core.new) }
{
    match op {
        Op::Write(span, _) => settle_write(shelf, core, number, span.pv, well),
        Op::Read(span, sectors) => settle_read(shelf, core, number, span.pv, &sectors, well),
        Op::Flush(_) => unreachable!(),
    }
}

// The same of a write on this disk.
fn settle_write<S: Shelf>(shelf: &S, core: &mut Core, number: u64, pv: u32, well: bool)
    requires orderly { IsOrderly (world (S.state shelf.now) core.old) }
    requires started { IsTrue (is_started core.old.pieces number) }
    requires landed { flying_at core.old.pieces number ≡ 0 }
    requires write { (live_of core.old.pieces number).piece.write ≡ true }
    requires disk { pv < length core.old.waits.disks }
    requires place { (span_of core.old.volumes (live_of core.old.pieces number).piece).pv ≡ pv }
    ensures { Settles (world (S.state shelf.now) core.old) number (written_acts number pv well) (world (S.state shelf.now) core.new) }
{
    if well {
        wrote(shelf, core, number, pv);
        return;
    }
    core.failed.insert(pv);
    fail(shelf, core, number, Answer::PvFailed(pv));
}

// And of a read, with these sectors.
fn settle_read<S: Shelf>(
    shelf: &S,
    core: &mut Core,
    number: u64,
    pv: u32,
    sectors: &Sectors,
    well: bool,
)
    requires orderly { IsOrderly (world (S.state shelf.now) core.old) }
    requires started { IsTrue (is_started core.old.pieces number) }
    requires landed { flying_at core.old.pieces number ≡ 0 }
    requires read { (live_of core.old.pieces number).piece.write ≡ false }
    requires many { length sectors.now ≡ (live_of core.old.pieces number).piece.count }
    requires place { (span_of core.old.volumes (live_of core.old.pieces number).piece).pv ≡ pv }
    ensures { Settles (world (S.state shelf.now) core.old) number (read_acts number pv sectors.now well) (world (S.state shelf.now) core.new) }
{
    if well {
        read(shelf, core, number, sectors);
        return;
    }
    fail(shelf, core, number, Answer::ReadFailed(pv));
}

// The write of the piece on this disk has completed well: it takes place. Where its flush is awaited it stays until then.
fn wrote<S: Shelf>(shelf: &S, core: &mut Core, number: u64, pv: u32)
    requires orderly { IsOrderly (world (S.state shelf.now) core.old) }
    requires started { IsTrue (is_started core.old.pieces number) }
    requires landed { flying_at core.old.pieces number ≡ 0 }
    requires write { (live_of core.old.pieces number).piece.write ≡ true }
    requires disk { pv < length core.old.waits.disks }
    ensures { core.new ≡ after_wrote core.old number pv (S.state shelf.now).steps }
{
    let place = core.waits.wrote(number, pv);
    let live = core.pieces.get(number);
    let (line, piece) = (live.line, live.piece);
    core.waits.note(piece.volume, pv, place);
    core.lines.took(line, piece, shelf.steps());
    core.owed.shrink(Room::OF_WRITE);
    match core.pieces.take_ticket(number) {
        Some(ticket) => {
            core.pieces.set_stage(number, Stage::Taken { awaited: 1 });
            core.owed.shrink(Room::OF_WAIT);
            core.waits.wait(ticket, Waiter::Piece(number), pv, place);
        }
        None => leave(core, number, pv),
    }
}

// The read of the piece has completed well: its sectors go to its line, and it takes place.
fn read<S: Shelf>(shelf: &S, core: &mut Core, number: u64, sectors: &Sectors)
    requires orderly { IsOrderly (world (S.state shelf.now) core.old) }
    requires started { IsTrue (is_started core.old.pieces number) }
    requires landed { flying_at core.old.pieces number ≡ 0 }
    requires read { (live_of core.old.pieces number).piece.write ≡ false }
    requires many { length sectors.now ≡ (live_of core.old.pieces number).piece.count }
    ensures { core.new ≡ after_reads core.old number sectors.now (S.state shelf.now).steps }
{
    let live = core.pieces.get(number);
    let (line, piece) = (live.line, live.piece);
    core.lines.took(line, piece, shelf.steps());
    core.owed.shrink(Room::OF_ENTRY);
    core.pieces.leave(number);
    core.opens.fill(line, piece.first, sectors);
    core.opens.finish(line);
}

// The piece leaves, whose write on this disk nobody asks for any more.
fn leave(core: &mut Core, number: u64, pv: u32)
    requires among { IsTrue (is_among core.old.pieces number) }
    requires landed { flying_at core.old.pieces number ≡ 0 }
    requires left { 0 < left_of core.old.opens (live_of core.old.pieces number).line }
    ensures { core.new ≡ after_leaves core.old number pv }
{
    let line = core.pieces.get(number).line;
    core.waits.forget(number, pv);
    core.pieces.leave(number);
    core.opens.finish(line);
}

/// What the ended flush of the disk served waits no more, and lines fail that waited for what doesn't last. Those of which nothing is left
/// are answered.
pub(crate) fn release_all<S: Shelf>(shelf: &S, core: &mut Core, pv: u32, well: bool)
    requires orderly { IsOrderly (world (S.state shelf.now) core.old) }
    requires disk { pv < length core.old.waits.disks }
    requires ended { flight_of core.old.waits.plan pv ≡ None }
    requires calm { IsCalm no_one no_one core.old }
    ensures ends { SettlesAndGoes (flushed_acts pv well) (world (S.state shelf.now) core.old) (world (S.state shelf.now) core.new) }
    ensures calm { IsCalm no_one no_one core.new }
    ensures released { AreReleasedBut pv core.old → AreReleased core.new }
{
    note(core, pv, well);
    while let Some((line, lasts)) = release(core, pv) {
        warn(core, line, pv, lasts);
        close_line(shelf, core, line);
    }
}

// The disk has failed, where its flush did.
fn note(core: &mut Core, pv: u32, well: bool)
    requires { pv < 64 }
    ensures { core.new ≡ (if well then core.old else after_marks core.old pv) }
{
    if !well {
        core.failed.insert(pv);
    }
}

// The line is to answer so, too, unless what it waited for lasts.
fn warn(core: &mut Core, line: u32, pv: u32, lasts: bool)
    requires { IsTrue (is_some (open_at core.old.opens line)) }
    ensures { core.new ≡ (if lasts then core.old else after_line_fails core.old line (PvFailed pv)) }
{
    if !lasts {
        core.opens.fail(line, Answer::PvFailed(pv));
    }
}

// Whether the write at this place of the disk's lasts.
fn is_stable(core: &Core, pv: u32, place: u64) -> bool
    requires { pv < length core.now.waits.disks }
    ensures { result ≡ nat_le place (marks_of core.now.waits.plan pv).stable }
{
    matches!(core.waits.awaited(pv, place), Awaited::Stable)
}

// The first that the disk's last flush served waits no more, if one is left. Its line comes back, and whether what it waited for lasts.
fn release(core: &mut Core, pv: u32) -> Option<(u32, bool)>
    requires tidy { IsTidy core.old }
    requires disk { pv < length core.old.waits.disks }
    requires ended { flight_of core.old.waits.plan pv ≡ None }
    ensures first { result ≡ first_released core.old pv }
    ensures behind { IfSome (released_at core.old pv) (λ (w : WaitingRecord). w.place ≤ (marks_of core.old.waits.plan pv).ended) }
    ensures after { core.new ≡ core_released core.old pv (released_at core.old pv) }
{
    let first = core.waits.release(pv)?;
    let lasts = is_stable(core, pv, first.place);
    match first.waiter {
        Waiter::Piece(number) => {
            let line = core.pieces.get(number).line;
            leave(core, number, pv);
            Some((line, lasts))
        }
        Waiter::Line(line) => {
            core.opens.finish(line);
            Some((line, lasts))
        }
    }
}
