//! A lock over a value, which one worker at a time takes out, changes and gives back.
//!
//! The value has an origin, which never changes, and a story, a list that only grows. All that is done with the lock's turn
//! is one history: a seat takes the turn where it is free, misses it where another seat has it, and gives a value that
//! continues the one that it took. The value that is taken is the one that was given last. Each seat has seen a beginning of
//! the history, and whatever it does comes behind all that it had seen. So the value that `close` answers continues what
//! every joined seat had seen.
//!
//! A seat has some of 64 parts, and only one that has them all closes the lock: then every other seat was joined. Only
//! `take` waits, and takes the runtime for that; nothing is promised about when the turn comes, or to whom.
#![tactic(auto)]

mod calls;
mod event;
mod gate;
mod grows;
mod lock;
mod rule;
#[cfg(test)]
mod tests;
mod view;

pub use calls::open;
pub use event::LockEvent;
pub use gate::{Gate, OpenGate};
pub use grows::Grows;
pub use lock::{LockRefused, LockSeat, TableLock};
