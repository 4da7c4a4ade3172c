//! The history of plain volumes that a run is held against, and what every image of it shows at every moment.
//!
//! There is no code here. A reader who wants to know what is promised reads, in this order: `line_table`'s `specs/Machine`,
//! the volume machine; `specs/Chronicles`, what is entered of a run; `specs/Replay`, the machine's step of each entry;
//! `specs/Legal`, what each entry needs of those before it; `specs/Candidates`, what a sector may hold, and what a consistent
//! moment is; `specs/Runs`, the promise. `specs/Sources`, `specs/Parts` and `specs/Quiet` are the parts of the invariant that
//! give it, and `specs/Single` the histories of single commands.
#![tactic(auto)]

mod laws;

pub use laws::{
    histories_stay, parts_make_consistent, quiet_histories, scans_are_one, single_commands,
    volumes_are_viewed,
};
