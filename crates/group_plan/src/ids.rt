//! The ids that a group has.
ghost use Rattle.std.specs.Prelude.{◌≡◌};
ghost use Rattle.group_plan.specs.Ids.{has_any_id, has_lv_id, has_other_id, has_pv_id};

use lvm_id::LvmId;
use meta_model::Group;
use scan_rules::same_id;

/// Whether the group, or a volume of it, has the id.
pub fn has_id(group: &Group, id: &LvmId) -> bool
    ensures { result ≡ has_any_id group.now id.now }
{
    has_other_id(group, id) || has_pv_id(group, id)
}

// Whether the group, or a logical volume of it, has the id.
fn has_other_id(group: &Group, id: &LvmId) -> bool
    ensures { result ≡ has_other_id group.now id.now }
{
    same_id(&group.id, id) || has_lv_id(group, id)
}

// Whether a logical volume of the group has it.
fn has_lv_id(group: &Group, id: &LvmId) -> bool
    ensures { result ≡ has_lv_id group.now id.now }
{
    for number in 0..group.lvs.len() {
        let (_, lv) = group.lvs.get(number);
        if same_id(&lv.id, id) {
            return true;
        }
    }
    false
}

// Whether a physical volume of the group has it.
fn has_pv_id(group: &Group, id: &LvmId) -> bool
    ensures { result ≡ has_pv_id group.now id.now }
{
    for number in 0..group.pvs.len() {
        let (_, pv) = group.pvs.get(number);
        if same_id(&pv.id, id) {
            return true;
        }
    }
    false
}
