//! Reading a tree.
ghost use Rattle.meta_read.specs.Standing.{StandsFor};

use crate::Unknown;
use crate::passed::unknown_in;
use crate::top::read_top;
use conf_text::Tree;
use meta_model::{Group, GroupRefusal};
use std::alloc::Global;

/// The group that the tree stands for, and the paths of the keys that are passed over, in the order of the text.
///
/// # Errors
///
/// The first of the keys that is refused, in the order of their table: a section's keys before its sections, sections in
/// the order of the text. `NoMemory` where memory is wanting.
#[tactic(auto, using(crate::proofs::Passing::passed_over_items))]
pub fn group_of(alloc: Global, tree: &Tree<'_>) -> Result<(Group, Unknown), GroupRefusal>
    ensures { StandsFor tree.now result }
{
    let top = tree.top();
    let group = read_top(alloc, &top)?;
    let unknown = unknown_in(alloc, &top)?;
    Ok((group, unknown))
}
