//! A group in which a logical volume has another name.
ghost use Rattle.std.specs.Prelude.{◌≡◌, ◌≢◌, ℕ, None, List, IfOk, false, true, if◌then◌else◌, is_some, map};
ghost use Rattle.std.specs.Str.{bytes_eq};
ghost use Rattle.lvm_name.specs.Names.{is_among, volume_name_refusal};
ghost use Rattle.meta_model.specs.Tables.{names_of};
ghost use Rattle.meta_model.specs.declared.lv.Lv.{Lv as Row};
ghost use Rattle.group_edits.specs.NextVersion.{changed_if};
ghost use Rattle.group_edits.specs.RenamedVolume as specs;
ghost use Rattle.group_edits.specs.Visible.{visible_named};

use crate::finding::is_volume;
use crate::next::with_lvs;
use lvm_name::VolumeName;
use meta_model::{LvTable, TryCopy};
use sector_base::Text;
use std::alloc::{AllocError, Global};
use vg_check::Checked;

/// The next version of the group, in which the visible volume of the old name has the new one.
///
/// # Errors
///
/// Where memory is wanting.
pub fn renamed_volume(
    alloc: Global,
    group: &Checked,
    old: &Text,
    new: &VolumeName,
) -> Result<Checked, AllocError>
    requires there { is_some (visible_named group.now old.now) ≡ true }
    requires free { is_among (names_of group.now.lvs) new.now ≡ false }
    requires valid { volume_name_refusal new.now ≡ None }
    requires seqno { group.now.seqno ≢ 4294967295 }
    ensures { IfOk result (λ next. next ≡ specs.renamed_volume old.now new.now group.now) }
{
    let found = group.group();
    let lvs = renamed_lvs(alloc, &found.lvs, old, new)?;
    let next = with_lvs(alloc, found, lvs)?;
    Ok(Checked::new(next))
}

// The volumes, where the one of the old name has the new one. That no name stands twice then isn't asked: where one did, it
// would end as for want of memory.
fn renamed_lvs(
    alloc: Global,
    lvs: &LvTable,
    old: &Text,
    new: &VolumeName,
) -> Result<LvTable, AllocError>
    ensures { IfOk result (λ all. all ≡ map (changed_if old.now (λ (row : List ℕ × Row). (new.now, row.1))) lvs.now) }
{
    let mut all = LvTable::new(alloc);
    for number in 0..lvs.len() {
        let (own, lv) = lvs.get(number);
        let name = renamed_name(alloc, own, old, new)?;
        let copy = lv.try_copy(alloc)?;
        if all.push(name, copy).is_err() {
            return Err(AllocError);
        }
    }
    Ok(all)
}

// The name of a volume, where the one of the old name has the new one.
fn renamed_name(
    alloc: Global,
    own: &VolumeName,
    old: &Text,
    new: &VolumeName,
) -> Result<VolumeName, AllocError>
    ensures { IfOk result (λ name. name ≡ (if bytes_eq own.now old.now then new.now else own.now)) }
{
    if is_volume(own, old) {
        new.try_copy(alloc)
    } else {
        own.try_copy(alloc)
    }
}
