//! The lock and its seats.
ghost use Rattle.std.specs.Prelude.{◌≡◌, ◌<◌, []};
ghost use Rattle.table_lock.specs.Views.{slots_of};

use crate::grows::Grows;
use crate::rule::LockRule;
use crate::view::SeatView;
use atomic_table::{Seat, Table};
use std::alloc::Global;
use std::snapshot::Snapshot;

/// Keeps one value, which one seat at a time takes out.
pub struct TableLock<T: Grows> {
    pub(crate) table: Table<Option<T>, SeatView<T>, Snapshot<T>, LockRule<T>, Global>,
    ghost sized: { (table.shared.table_id.words ≡ 1) × (table.shared.table_id.slots ≡ 1) },
}

/// A place at a lock, which takes no memory. A thread takes and gives the value by it.
#[derive(Drop)]
pub struct LockSeat<T: Grows> {
    pub(crate) seat: Seat<Option<T>, SeatView<T>>,
    ghost has_parts: { 0 < seat.me.0.parts },
    ghost carries: { seat.me.1 ≡ slots_of seat.me.0.has_turn },
    ghost settled: { seat.me.0.told ≡ [] },
}

/// There was no memory for a lock. The value comes back.
#[derive(Drop)]
pub struct LockRefused<T> {
    pub value: T,
}
