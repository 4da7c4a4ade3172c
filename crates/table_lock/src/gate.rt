//! What workers and a move's progress are told to.

/// Where a run lets others go first, and hears how far a move has come.
pub trait Gate {
    /// What a worker passes before each of its steps. `point` counts the events that it has done, from 0.
    fn pass(&self, worker: u32, point: u32);

    /// Hears how many regions of the running move are done, of so many in all. It is called outside of the lock.
    fn moved(&self, _done: u64, _all: u64) {}
}

/// A gate that holds nobody up.
#[derive(Clone, Copy, Debug, Drop)]
pub struct OpenGate;

impl Gate for OpenGate {
    fn pass(&self, _worker: u32, _point: u32) {}
}
