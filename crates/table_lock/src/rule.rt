//! The rule of the table under the lock, and what each kind of step tells.
use crate::grows::Grows;
use crate::view::SeatView;
use atomic_table::{Join, Play, Split, TableRule};
use std::marker::PhantomData;
use std::snapshot::Snapshot;

/// One word, the turn, and one slot, the value.
pub struct LockRule<T> {
    marker: PhantomData<T>,
}

impl<T: Grows> TableRule<Option<T>, SeatView<T>, Snapshot<T>> for LockRule<T> {
    ghost use Rattle.table_lock.specs.Rule.{IsKept};
    ghost use Rattle.table_lock.specs.Views.{first_view};

    ghost holds = { λ key. IsKept T.origin T.story };

    ghost first = { λ key. first_view key.value };
}

/// The turn is taken where it is free.
pub struct TakeTurn;

impl<T: Grows> Play<Option<T>, SeatView<T>> for TakeTurn {
    ghost use Rattle.table_lock.specs.Rule.{Takes};

    ghost then = { Takes T.origin T.story };
}

/// The turn is set free.
pub struct FreeTurn;

impl<T: Grows> Play<Option<T>, SeatView<T>> for FreeTurn {
    ghost use Rattle.table_lock.specs.Rule.{Frees};

    ghost then = { Frees T.origin T.story };
}

/// The longer of the two histories is kept that a seat knows after a join.
pub struct Settle;

impl<T: Grows> Play<Option<T>, SeatView<T>> for Settle {
    ghost use Rattle.table_lock.specs.Rule.{Settles};

    ghost then = { Settles T.origin T.story };
}

/// How a seat gives one part to a new seat, and how it takes another seat's parts in.
pub struct Parts;

impl<T> Split<SeatView<T>> for Parts {
    ghost use Rattle.table_lock.specs.Views.{less_one_part, one_part};

    ghost left = { less_one_part };

    ghost right = { one_part };
}

impl<T> Join<SeatView<T>> for Parts {
    ghost use Rattle.table_lock.specs.Views.{joined_views, spent_view};

    ghost both = { joined_views };

    ghost spent = { spent_view };
}
