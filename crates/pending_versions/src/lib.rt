//! What holds of a command's next version while lines read and write beside its commit.
//!
//! There is no code here. Each sector of the version that a command makes of the one in force is *born*, at a place where one
//! value may be left by then, or *stays* where it stood (`specs/Coming`); which places these are follows from the two versions
//! alone (`specs/Births`). So lines on volumes owe the pending command nothing but new numbers, and that they write at none of
//! these places (`specs/Pending`). `specs/Machines` has versions and machines that belong together, `specs/Taking` where a commit makes
//! its version, and `specs/Laws` what is kept, and what it gives.
#![tactic(auto)]

mod laws;

pub use laws::{
    commits_take_place, pending_commands_show, pending_commands_stay, versions_are_remade,
};
