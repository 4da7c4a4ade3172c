//! Answers of lines.
ghost use Rattle.std.specs.Prelude.{◌≡◌, ◌≢◌, ◌≤◌, ◌<◌, IsTrue, None, Some, false, is_some};
ghost use Rattle.line_table.specs.Steps.{last_moment, may_enter};
ghost use Rattle.world_acts.specs.Acts.{Reaches, follows, world};
ghost use Rattle.world_acts.specs.OpenLines.{left_of, open_at};
ghost use Rattle.world_acts.specs.Orderly.{IsOrderly};
ghost use Rattle.world_acts.specs.Steps.{after_answers, taken_whole};
ghost use Rattle.io_core.specs.Rest.{IsCalm, IsQuiet, just, no_one};

use disk_model::Shelf;
use line_table::LineTable;
use sector_base::Piece;
use world_acts::{Core, OpenLine, Room};

// The piece of an entry that has no sectors, of this volume.
fn no_piece(volume: u32) -> Piece
    ensures { result ≡ record { volume = volume; first = 0; count = 0; write = false } }
{
    Piece {
        volume,
        first: 0,
        count: 0,
        write: false,
    }
}

/// Answers the open line, where nothing of it is left, and then the one that waits for all others, where this was the last of them.
pub(crate) fn close_line<S: Shelf>(shelf: &S, core: &mut Core, line: u32)
    requires orderly { IsOrderly (world (S.state shelf.now) core.old) }
    requires opened { IsTrue (is_some (open_at core.old.opens line)) }
    requires other { core.old.barrier ≢ Some line }
    ensures reaches { Reaches follows (world (S.state shelf.now) core.old) (world (S.state shelf.now) core.new) }
    ensures calm { IsCalm no_one (just line) core.old → IsCalm no_one no_one core.new }
    ensures pieces { core.new.pieces ≡ core.old.pieces }
    ensures waits { core.new.waits ≡ core.old.waits }
    ensures failed { core.new.failed ≡ core.old.failed }
{
    if core.opens.get(line).left > 0 {
        return;
    }
    answer_line(shelf, core, line);
    pass_barrier(shelf, core);
}

// The line that waits for all others is answered, where no other is open.
fn pass_barrier<S: Shelf>(shelf: &S, core: &mut Core)
    requires orderly { IsOrderly (world (S.state shelf.now) core.old) }
    ensures reaches { Reaches follows (world (S.state shelf.now) core.old) (world (S.state shelf.now) core.new) }
    ensures calm { IsQuiet no_one no_one core.old → IsCalm no_one no_one core.new }
    ensures pieces { core.new.pieces ≡ core.old.pieces }
    ensures waits { core.new.waits ≡ core.old.waits }
    ensures failed { core.new.failed ≡ core.old.failed }
{
    let Some(line) = core.barrier else {
        return;
    };
    if core.lines.open_count() > 1 {
        return;
    }
    core.barrier = None;
    answer_line(shelf, core, line);
}

// Answers the line, of which nothing is left. One without pieces takes place just before, unless it failed.
fn answer_line<S: Shelf>(shelf: &S, core: &mut Core, line: u32)
    requires orderly { IsOrderly (world (S.state shelf.now) core.old) }
    requires opened { IsTrue (is_some (open_at core.old.opens line)) }
    requires over { left_of core.old.opens line ≡ 0 }
    ensures { core.new ≡ after_answers core.old line (S.state shelf.now).steps }
{
    let open = core.opens.close(line);
    core.owed.shrink(Room::of_line(&open));
    take_place(&mut core.lines, line, &open, shelf.steps());
    core.lines.answer(line, open.into_answer(), shelf.steps());
}

// The entry of a line that takes place as a whole, unless something of it failed.
fn take_place(lines: &mut LineTable, line: u32, open: &OpenLine, moment: u64)
    requires entry { 0 < lines.old.spare_entries }
    requires line { IsTrue (may_enter lines.old line) }
    requires moment { last_moment lines.old.journal ≤ moment }
    ensures { lines.new ≡ taken_whole lines.old line open.now moment }
{
    if open.takes_place() {
        lines.took(line, no_piece(open.key), moment);
    }
}
