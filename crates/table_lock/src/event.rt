//! What is done with a lock's turn.

/// An entry of a lock's history, which exists in the proofs alone: no value of it is made.
pub enum LockEvent<T> {
    /// The value was put under the lock, at its opening or by the seat that had the turn, and the turn is free.
    Given(T),
    /// A seat found the turn free and took it, and the value with it.
    Taken,
    /// A seat found the turn taken.
    Missed,
}
