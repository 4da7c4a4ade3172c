//! A group with another name.
ghost use Rattle.std.specs.Prelude.{◌≡◌, ◌≢◌, None, IfOk};
ghost use Rattle.lvm_name.specs.Names.{group_name_refusal};
ghost use Rattle.group_edits.specs.RenamedGroup as specs;

use crate::next::next_of;
use lvm_name::GroupName;
use std::alloc::{AllocError, Global};
use vg_check::Checked;

/// The next version of the group, with this name.
///
/// # Errors
///
/// Where memory is wanting.
pub fn renamed_group(alloc: Global, group: &Checked, name: GroupName) -> Result<Checked, AllocError>
    requires name { group_name_refusal name ≡ None }
    requires seqno { group.now.seqno ≢ 4294967295 }
    ensures { IfOk result (λ next. next ≡ specs.renamed_group group.now name) }
{
    let mut next = next_of(alloc, group.group())?;
    next.name = name;
    Ok(Checked::new(next))
}
