//! From a script to its answers: alone, or with workers under one lock.
//!
//! What runs the lines is `Driven`: a world that goes on by events. A `Desk` has the world, the lines of the script that
//! weren't begun, and whether memory was wanted. One step of the desk begins the next line where it may be, else starts a
//! commit that is due, else completes an operation. So no operation completes while the next line may begin, and the desk's
//! type keeps that. Where memory is wanted for a line, that line comes back, and where it is wanted for a commit, the move is
//! given up; then no further line is begun. `run_alone` goes on until every line is answered, and returns. `run_session` puts
//! the desk under a lock, from which workers take it, one step at a time, and finishes what they leave.
//!
//! Of a run `IsCarriedOut` says everything (`specs/Runs`): the world is the one that was handed in, continued by events, a
//! refusal for want of memory being one; the lines that it has begun, the one that came back, and those that are left are the
//! script; all are begun unless memory was wanted; each one that was begun is answered, and nothing is in flight.
#![tactic(auto)]

mod desk;
mod driven;
mod session;
mod workers;

pub use desk::{Desk, DeskOrigin};
pub use driven::{BeginRefused, Driven};
pub use session::{Run, run_alone, run_session};
