//! What waits on one disk.
ghost use Rattle.std.specs.Prelude.{◌≡◌, ◌<◌, ◌+◌, ◌^◌, [], ◌∷◌, ◌++◌, drop, length, slice_get};

use crate::ticket::{Ticket, Waiting};
use std::alloc::Global;
use std::collections::LinkedList;
use std::marker::Model;

// What the flush in flight serves, or one that has just ended, and what none serves yet. Contracts see the two lists.
#[derive(Drop)]
pub(crate) struct DiskQueue {
    served: LinkedList<Waiting>,
    next: LinkedList<Waiting>,
}

impl Model for DiskQueue {
    ghost use Rattle.flush_waits.specs.Waits.{DiskWaits};

    ghost Value = { DiskWaits };

    ghost view = { λ q. record { served = q.served; next = q.next } };
}

impl DiskQueue {
    // Nothing waits.
    pub(crate) fn new(alloc: Global) -> Self
        ensures { result ≡ record { served = []; next = [] } }
    {
        DiskQueue {
            served: LinkedList::new(alloc),
            next: LinkedList::new(alloc),
        }
    }

    // It waits for the flush in flight.
    pub(crate) fn serve(&mut self, ticket: Ticket, waiting: Waiting)
        requires { length self.old.served + 1 < 2 ^ 63 }
        ensures { self.new ≡ record self.old { served = self.old.served ++ waiting ∷ [] } }
    {
        put(&mut self.served, ticket, waiting);
    }

    // It waits for the flush behind that.
    pub(crate) fn defer(&mut self, ticket: Ticket, waiting: Waiting)
        requires { length self.old.next + 1 < 2 ^ 63 }
        ensures { self.new ≡ record self.old { next = self.old.next ++ waiting ∷ [] } }
    {
        put(&mut self.next, ticket, waiting);
    }

    // A flush was submitted, which serves all that no other does.
    pub(crate) fn advance(&mut self)
        requires { self.old.served ≡ [] }
        ensures { self.new ≡ record { served = self.old.next; next = [] } }
    {
        std::mem::swap(&mut self.served, &mut self.next);
    }

    // The first that is served goes.
    pub(crate) fn pop(&mut self) -> Option<Waiting>
        ensures first { result ≡ slice_get self.old.served 0 }
        ensures rest { self.new ≡ record self.old { served = drop 1 self.old.served } }
    {
        self.served.pop_front()
    }

    // How many aren't served yet.
    pub(crate) fn unserved(&self) -> u64
        ensures { result ≡ length self.now.next }
    {
        self.next.len() as u64
    }
}

// It is the last of the list.
fn put(list: &mut LinkedList<Waiting>, ticket: Ticket, waiting: Waiting)
    requires { length list.old + 1 < 2 ^ 63 }
    ensures { list.new ≡ list.old ++ waiting ∷ [] }
{
    let mut node = ticket.used_by(waiting);
    match list.append(&mut node) {
        Ok(()) => {}
        Err(_) => unreachable!(),
    }
}
