//! What a world keeps beside its shelf, and the acts by which it goes on.
//!
//! A world is a shelf and a core: the lines and those that aren't answered, the volumes, the pieces under way, what waits for flushes,
//! and what all of them may still use up. Each event of a world is a list of acts, and each act changes one thing, adds one entry or
//! is one step of the shelf at the most. `IsOrderly` holds in every state, and each act keeps it (`proofs/Orderly`): it gives what the
//! calls on the tables and on the shelf ask.
#![tactic(auto)]

mod open_line;
mod open_lines;
mod room;
mod state;
mod volumes;

pub use open_line::{OpenLine, Work};
pub use open_lines::OpenLines;
pub use room::Room;
pub use state::Core;
pub use volumes::{VolumeRow, Volumes, rows_of};
