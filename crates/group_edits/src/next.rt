//! The next version of a group.
ghost use Rattle.std.specs.Prelude.{◌≡◌, ◌≤◌, IfOk};
ghost use Rattle.group_edits.specs.NextVersion as specs;

use meta_model::{Group, LvTable};
use std::alloc::{AllocError, Global};
use vg_check::Checked;

/// The next version of the group.
///
/// # Errors
///
/// Where memory is wanting.
pub fn next_version(alloc: Global, group: &Checked) -> Result<Group, AllocError>
    ensures { IfOk result (λ next. next ≡ specs.next_version group.now) }
{
    next_of(alloc, group.group())
}

// The same of a group by itself.
pub(crate) fn next_of(alloc: Global, group: &Group) -> Result<Group, AllocError>
    requires { group.now.seqno ≤ 4294967295 }
    ensures { IfOk result (λ next. next ≡ specs.next_version group.now) }
{
    let mut next = group.try_copy(alloc)?;
    next.seqno += 1;
    Ok(next)
}

// The next version of the group, with these volumes.
pub(crate) fn with_lvs(alloc: Global, group: &Group, lvs: LvTable) -> Result<Group, AllocError>
    requires { group.now.seqno ≤ 4294967295 }
    ensures { IfOk result (λ next. next ≡ specs.with_lvs group.now lvs) }
{
    let mut next = next_of(alloc, group)?;
    next.lvs = lvs;
    Ok(next)
}
