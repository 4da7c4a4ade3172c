//! The next version of a group, as a command makes it of the one in force: with further physical volumes, with another name,
//! without a physical volume, with another name of a logical volume, with a longer one, with one more, with the first extents of
//! one alone, or without one; or as a text has it. A new group is one without volumes, with its physical volumes joined.
//!
//! Each keeps all rules of groups, and its text is read again as the same group. Nothing here knows of disks, of lines or of
//! refusals: callers have seen to it that the change may be made.
#![tactic(auto)]

mod creating;
mod finding;
mod given_segments;
mod join_pvs;
mod leg_numbers;
mod lengthen;
mod naming;
mod new_numbers;
mod next;
mod reduce_group;
mod removing;
mod rename_group;
mod rename_volume;
mod restore_group;
mod shorten_volume;

pub use creating::with_volume;
pub use finding::find_visible;
pub use join_pvs::joined_group;
pub use lengthen::longer_volume;
pub use next::next_version;
pub use reduce_group::{has_leg_on_pv, reduced_group};
pub use removing::without_volume;
pub use rename_group::renamed_group;
pub use rename_volume::renamed_volume;
pub use restore_group::restored_group;
pub use shorten_volume::{extents, is_layered, kept_extents, shortened_volume};
