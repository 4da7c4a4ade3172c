//! What waits, and room for it.
ghost use Rattle.std.specs.Prelude.{◌≡◌, [], ◌∷◌};

use std::alloc::{AllocError, Global};
use std::collections::LinkedList;
use std::marker::Model;

/// What waits for writes to last: a piece, by its number, or a line, by its place among those that were begun.
#[derive(Clone, Copy, Debug, Drop, PartialEq, Eq)]
pub enum Waiter {
    Piece(u64),
    Line(u32),
}

/// It waits for the write at this place in the plan's order, on some disk.
#[derive(Clone, Copy, Debug, Drop, PartialEq, Eq)]
pub struct Waiting {
    pub waiter: Waiter,
    pub place: u64,
}

/// Room for one that waits.
#[derive(Debug, Drop)]
pub struct Ticket {
    node: LinkedList<Waiting>,
}

impl Model for Ticket {
    ghost use Rattle.std.specs.Prelude.{◌≡◌, length};

    // All tickets are alike.
    ghost Value = { Unit {0} };

    ghost view = { λ _. tt };

    ghost invariant = { λ t. length t.node ≡ 1 };
}

// Stands in a ticket until it is used.
const NOBODY: Waiting = Waiting {
    waiter: Waiter::Line(0),
    place: 0,
};

impl Ticket {
    /// A ticket. Only memory can be wanting.
    pub fn new(alloc: Global) -> Result<Self, AllocError> {
        let mut node = LinkedList::new(alloc);
        node.push_back(NOBODY)?;
        Ok(Ticket { node })
    }

    // The list of this one alone, in the ticket's room.
    pub(crate) fn used_by(self, waiting: Waiting) -> LinkedList<Waiting>
        ensures { result ≡ waiting ∷ [] }
    {
        let Ticket { mut node } = self;
        if let Some(place) = node.front_mut() {
            *place = waiting;
        }
        node
    }
}
