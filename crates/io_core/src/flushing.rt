//! Flushes that are submitted.
ghost use Rattle.std.specs.Prelude.{◌≡◌, ◌<◌, ◌==◌, ℕ, IsTrue, None, [], false, length};
ghost use Rattle.disk_model.specs.Calls.{Submits};
ghost use Rattle.disk_model.specs.declared.ops.Op.TheVariants.{Flush};
ghost use Rattle.flush_waits.specs.Waits.{disk_waits, is_wanted};
ghost use Rattle.world_acts.specs.Acts.{Reaches, follows, world};
ghost use Rattle.world_acts.specs.Orderly.{AreReleased, IsOrderly};
ghost use Rattle.world_acts.specs.Steps.{after_flush};
ghost use Rattle.io_core.specs.Rest.{IsAtRest, IsSettled};

use disk_model::{Op, Shelf};
use world_acts::{Core, Room};

/// Submits a flush of each disk on which something waits that none serves, and of which none is in flight.
pub(crate) fn submit_flushes<S: Shelf>(shelf: &mut S, core: &mut Core)
    requires orderly { IsOrderly (world (S.state shelf.old) core.old) }
    requires settled { IsSettled core.old }
    ensures reaches { Reaches follows (world (S.state shelf.old) core.old) (world (S.state shelf.new) core.new) }
    ensures rest { IsAtRest core.new }
    ensures opens { core.new.opens ≡ core.old.opens }
{
    for pv in 0..shelf.count() {
        flush_wanted(shelf, core, pv);
    }
}

// Submits a flush of the disk, where one is wanted.
fn flush_wanted<S: Shelf>(shelf: &mut S, core: &mut Core, pv: u32)
    requires orderly { IsOrderly (world (S.state shelf.old) core.old) }
    requires settled { IsSettled core.old }
    requires disk { pv < length core.old.waits.disks }
    ensures reaches { Reaches follows (world (S.state shelf.old) core.old) (world (S.state shelf.new) core.new) }
    ensures settled { IsSettled core.new }
    ensures here { is_wanted core.new.waits pv ≡ false }
    ensures opens { core.new.opens ≡ core.old.opens }
    ensures others { (other : ℕ) → (pv == other) ≡ false → is_wanted core.old.waits other ≡ false → is_wanted core.new.waits other ≡ false }
{
    if !core.waits.wants(pv) {
        return;
    }
    submit_flush(shelf, core, pv);
}

// One flush serves all that waits: the others have no need of theirs.
fn submit_flush<S: Shelf>(shelf: &mut S, core: &mut Core, pv: u32)
    requires orderly { IsOrderly (world (S.state shelf.old) core.old) }
    requires disk { pv < length core.old.waits.disks }
    requires wanted { IsTrue (is_wanted core.old.waits pv) }
    requires released { (disk_waits core.old.waits pv).served ≡ [] }
    ensures { (tag : ℕ) × Submits (S.state shelf.old) (Flush pv) tag (S.state shelf.new) × (core.new ≡ after_flush core.old pv tag) }
{
    core.owed.shrink(Room {
        ops: core.waits.unserved(pv),
        ..Room::NONE
    });
    let tag = shelf.submit(Op::Flush(pv));
    core.waits.submitted(pv, tag);
}
