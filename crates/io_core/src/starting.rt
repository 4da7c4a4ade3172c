//! Pieces that start.
ghost use Rattle.std.specs.Prelude.{◌≡◌, ◌⊎◌, ℕ, Bool, IsTrue, if◌then◌else◌, true};
ghost use Rattle.disk_model.specs.declared.ops.Op.TheVariants.{Read, Write};
ghost use Rattle.claim_table.specs.Steps.{after_leave};
ghost use Rattle.piece_table.specs.Pieces.{flying_at, is_started, may_start};
ghost use Rattle.piece_table.specs.Steps.{live_of};
ghost use Rattle.world_acts.specs.Acts.{Reaches, follows, starts, world};
ghost use Rattle.world_acts.specs.Orderly.{IsOrderly};
ghost use Rattle.world_acts.specs.Steps.{after_fails};
ghost use Rattle.io_core.specs.Rest.{IsCalm, NoneReady, SameLines, just, no_one};

use crate::answering::close_line;
use disk_model::{Op, Shelf};
use line_answers::Answer;
use sector_base::{Sectors, Span};
use world_acts::{Core, Room};

/// Starts the piece: its operation is submitted, or it fails at once where its disk has failed. Its line isn't answered yet.
pub(crate) fn start<S: Shelf>(shelf: &mut S, core: &mut Core, number: u64)
    requires orderly { IsOrderly (world (S.state shelf.old) core.old) }
    requires waiting { IsTrue (may_start core.old.pieces number) }
    ensures reaches { Reaches starts (world (S.state shelf.old) core.old) (world (S.state shelf.new) core.new) }
    ensures calm { (lines : ℕ → Bool) → lines (live_of core.old.pieces number).line ≡ true → IsCalm (just number) lines core.old → IsCalm no_one lines core.new }
    ensures opens { SameLines core.old.opens core.new.opens }
    ensures barrier { core.new.barrier ≡ core.old.barrier }
    ensures deferred { core.new.pieces.claims.deferred ≡ core.old.pieces.claims.deferred }
    ensures claims { (core.new.pieces.claims ≡ core.old.pieces.claims) ⊎ (core.new.pieces.claims ≡ after_leave core.old.pieces.claims number) }
    ensures waits { core.new.waits ≡ core.old.waits }
{
    let piece = core.pieces.get(number).piece;
    let at = core.volumes.primary(piece.volume, piece.first);
    let sectors = core.pieces.start(number);
    core.owed.shrink(Room::of_start(&piece));
    if core.failed.contains(at.pv) {
        core.pieces.agree();
        fail(shelf, core, number, Answer::PvFailed(at.pv));
        return;
    }
    let span = Span {
        pv: at.pv,
        first: at.sector,
        count: piece.count,
    };
    let tag = shelf.submit(op_on(piece.write, span, sectors));
    core.pieces.flies(number, tag, true);
}

// A write of the sectors to this span, or a read of it into them.
fn op_on(write: bool, span: Span, sectors: Sectors) -> Op
    ensures { result ≡ (if write then Write span sectors else Read span sectors) }
{
    if write {
        Op::Write(span, sectors)
    } else {
        Op::Read(span, sectors)
    }
}

/// Starts what may start, and answers the lines of which nothing is left.
pub(crate) fn start_ready<S: Shelf>(shelf: &mut S, core: &mut Core)
    requires orderly { IsOrderly (world (S.state shelf.old) core.old) }
    requires calm { IsCalm no_one no_one core.old }
    ensures reaches { Reaches follows (world (S.state shelf.old) core.old) (world (S.state shelf.new) core.new) }
    ensures calm { IsCalm no_one no_one core.new }
    ensures ready { NoneReady core.new }
    ensures waits { core.new.waits ≡ core.old.waits }
{
    while let Some(number) = core.pieces.next_ready() {
        let line = core.pieces.get(number).line;
        start(shelf, core, number);
        close_line(shelf, core, line);
    }
}

/// The started piece, of which no operation is in flight, fails, for this answer of its line, and leaves.
pub(crate) fn fail<S: Shelf>(shelf: &S, core: &mut Core, number: u64, answer: Answer)
    requires orderly { IsOrderly (world (S.state shelf.now) core.old) }
    requires started { IsTrue (is_started core.old.pieces number) }
    requires landed { flying_at core.old.pieces number ≡ 0 }
    ensures { core.new ≡ after_fails core.old number answer (S.state shelf.now).steps }
{
    let live = core.pieces.get(number);
    let (line, piece) = (live.line, live.piece);
    core.lines.failed(line, piece, shelf.steps());
    let is_through = core.pieces.take_ticket(number).is_some();
    core.owed.shrink(Room::of_failure(&piece, is_through));
    core.pieces.leave(number);
    core.opens.fail(line, answer);
    core.opens.finish(line);
}
