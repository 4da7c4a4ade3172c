//! The calls.
ghost use Rattle.std.specs.Prelude.{◌≡◌, ◌+◌, ◌≤◌, ◌⊎◌, ◌∷◌, ◌++◌, [], Some, true, false, IfErr, IfNone, IfOk, IfSome, IsSome};
ghost use mathlib.Core.List.{IsPrefix};
ghost use Rattle.table_lock.specs.declared.event.LockEvent.TheVariants.{Given, Taken, Missed};
ghost use Rattle.table_lock.specs.History.{Adds, GivesBack};
ghost use Rattle.table_lock.specs.Seats.{opened, parts, history, last_seen, seen, has_taken, moves, IsSeatOf};

use crate::grows::Grows;
use crate::lock::{LockRefused, LockSeat, TableLock};
use crate::rule::{FreeTurn, Parts, Settle, TakeTurn};
use atomic_table::{Refused, Table};
use std::alloc::Global;
use std::snapshot::Snapshot;
use std::sync::Wait;

const FREE: u64 = 0;

const TAKEN: u64 = 1;

/// Puts the value under a lock, with a seat that has all 64 parts. Only memory can be wanting.
pub fn open<T: Grows + Send>(
    alloc: Global,
    value: T,
) -> Result<(TableLock<T>, LockSeat<T>), LockRefused<T>>
    ensures value { IfOk result (λ r. opened r.0 ≡ value) }
    ensures seat { IfOk result (λ r. IsSeatOf r.0 r.1 × (parts r.1 ≡ 64) × (has_taken r.1 ≡ false) × (moves r.1 ≡ 1)) }
    ensures seen { IfOk result (λ r. (history r.1 ≡ Given value ∷ []) × (seen r.1 ≡ T.story value)) }
    ensures refused { IfErr result (λ e. e.value ≡ value) }
{
    let key = Snapshot::of(&value);
    let mut slots = match Vec::with_capacity(alloc, 1) {
        Ok(slots) => slots,
        Err(_) => return Err(LockRefused { value }),
    };
    slots.push_reserved(Some(value));
    match Table::new(alloc, &[FREE], slots, &key) {
        Ok((table, seat)) => Ok((TableLock { table }, LockSeat { seat })),
        Err(Refused { mut slots }) => {
            let Some(Some(value)) = slots.pop() else {
                unreachable!()
            };
            slots.destroy_empty();
            Err(LockRefused { value })
        }
    }
}

impl<T: Grows + Send> TableLock<T> {
    /// Gives one part of the seat to a new seat, which has seen the same.
    pub fn split(&self, seat: &mut LockSeat<T>) -> LockSeat<T>
        requires of { IsSeatOf self.now seat.old }
        requires two { 2 ≤ parts seat.old }
        requires idle { has_taken seat.old ≡ false }
        ensures old { IsSeatOf self.now seat.new × (parts seat.new + 1 ≡ parts seat.old) × (has_taken seat.new ≡ false) }
        ensures same { (history seat.new ≡ history seat.old) × (moves seat.new ≡ moves seat.old) }
        ensures new { IsSeatOf self.now result × (parts result ≡ 1) × (has_taken result ≡ false) }
        ensures seen { (history result ≡ history seat.old) × (moves result ≡ 0) }
    {
        LockSeat {
            seat: self.table.shared.split_seat::<Parts>(&mut seat.seat),
        }
    }

    /// Takes the other seat's parts in, and all that it has seen.
    pub fn join(&self, seat: &mut LockSeat<T>, other: LockSeat<T>)
        requires of { IsSeatOf self.now seat.old × IsSeatOf self.now other }
        requires idle { (has_taken seat.old ≡ false) × (has_taken other ≡ false) }
        ensures seat { IsSeatOf self.now seat.new × (parts seat.new ≡ parts seat.old + parts other) × (has_taken seat.new ≡ false) × (moves seat.new ≡ moves seat.old + moves other) }
        ensures longer { (history seat.new ≡ history seat.old) ⊎ (history seat.new ≡ history other) }
        ensures history { IsPrefix (history seat.old) (history seat.new) × IsPrefix (history other) (history seat.new) }
        ensures seen { IsPrefix (seen seat.old) (seen seat.new) × IsPrefix (seen other) (seen seat.new) }
    {
        let LockSeat { seat: other } = other;
        let shared = &self.table.shared;
        shared.join_seat::<Parts>(&mut seat.seat, other);
        shared.load::<Settle>(&mut seat.seat, 0);
    }

    /// Takes the value where the turn is free, by one exchange. `None` comes exactly where that found the turn taken.
    pub fn try_take(&self, seat: &mut LockSeat<T>) -> Option<T>
        requires of { IsSeatOf self.now seat.old }
        requires idle { has_taken seat.old ≡ false }
        ensures of { IsSeatOf self.now seat.new × (parts seat.new ≡ parts seat.old) × (moves seat.new ≡ moves seat.old + 1) }
        ensures seen { IsPrefix (seen seat.old) (seen seat.new) }
        ensures taken { IfSome result (λ v. (has_taken seat.new ≡ true) × Adds T.origin T.story (history seat.old) Taken (history seat.new)) }
        ensures value { IfSome result (λ v. (last_seen seat.new ≡ Some v) × (seen seat.new ≡ T.story v) × (T.origin v ≡ T.origin (opened self.now))) }
        ensures none { IfNone result ((has_taken seat.new ≡ false) × Adds T.origin T.story (history seat.old) Missed (history seat.new)) }
        ensures alone { parts seat.old ≡ 64 → IsSome result × (history seat.new ≡ history seat.old ++ Taken ∷ []) }
    {
        let shared = &self.table.shared;
        if shared.compare_exchange::<TakeTurn>(&mut seat.seat, 0, FREE, TAKEN) != FREE {
            return None;
        }
        shared.exchange(&mut seat.seat, 0, None)
    }

    /// Waits until the turn is free, and takes the value.
    pub fn take<R: Wait>(&self, seat: &mut LockSeat<T>, rt: &R) -> T
        requires of { IsSeatOf self.now seat.old }
        requires idle { has_taken seat.old ≡ false }
        ensures of { IsSeatOf self.now seat.new × (parts seat.new ≡ parts seat.old) }
        ensures seen { IsPrefix (seen seat.old) (seen seat.new) }
        ensures taken { (has_taken seat.new ≡ true) × Adds T.origin T.story (history seat.old) Taken (history seat.new) }
        ensures value { (last_seen seat.new ≡ Some result) × (seen seat.new ≡ T.story result) × (T.origin result ≡ T.origin (opened self.now)) }
        ensures alone { parts seat.old ≡ 64 → history seat.new ≡ history seat.old ++ Taken ∷ [] }
    {
        for _ in rt.forever() {
            if let Some(value) = self.try_take(seat) {
                return value;
            }
            self.table.shared.park(rt, 0, TAKEN as u32);
        }
        unreachable!()
    }

    /// Gives the value back, which continues the one that was taken.
    pub fn give(&self, seat: &mut LockSeat<T>, value: T)
        requires of { IsSeatOf self.now seat.old }
        requires taken { has_taken seat.old ≡ true }
        requires origin { T.origin value ≡ T.origin (opened self.now) }
        requires story { IsPrefix (seen seat.old) (T.story value) }
        ensures of { IsSeatOf self.now seat.new × (parts seat.new ≡ parts seat.old) × (moves seat.new ≡ moves seat.old + 1) }
        ensures given { (has_taken seat.new ≡ false) × GivesBack T.origin T.story (history seat.old) value (history seat.new) }
        ensures value { (last_seen seat.new ≡ Some value) × (seen seat.new ≡ T.story value) }
        ensures alone { parts seat.old ≡ 64 → history seat.new ≡ history seat.old ++ Given value ∷ [] }
    {
        let shared = &self.table.shared;
        let vacant = shared.exchange(&mut seat.seat, 0, Some(value));
        let None = vacant else { unreachable!() };
        shared.store::<FreeTurn>(&mut seat.seat, 0, FREE);
        shared.wake_one(0);
    }

    /// The value that was given last, once every other seat was joined.
    pub fn close(self, seat: LockSeat<T>) -> T
        requires of { IsSeatOf self seat }
        requires all { parts seat ≡ 64 }
        requires idle { has_taken seat ≡ false }
        ensures value { last_seen seat ≡ Some result }
        ensures origin { T.origin result ≡ T.origin (opened self) }
        ensures story { T.story result ≡ seen seat }
    {
        let TableLock { table } = self;
        let LockSeat { seat } = seat;
        let mut closed = table.close_with(seat);
        let Some(value) = closed.take(0) else {
            unreachable!()
        };
        closed.free();
        value
    }
}
