//! What a seat knows.
use crate::event::LockEvent;
use std::collections::LinkedList;

/// What a seat knows of the lock. It exists in the proofs alone: no value of it is made.
pub struct SeatView<T> {
    /// Its parts of the 64.
    pub parts: u64,
    /// Whether it has the turn.
    pub has_turn: bool,
    /// The lock's history as far as it has seen it.
    pub history: LinkedList<LockEvent<T>>,
    /// The history that a seat had seen which was joined in, until the next step.
    pub told: LinkedList<LockEvent<T>>,
    /// How many entries of the history are its own.
    pub moves: u64,
}
