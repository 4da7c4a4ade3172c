//! The volumes of a group by their numbers.
ghost use Rattle.std.specs.Prelude.{◌≡◌, ◌<◌, Some, length, slice_get};
ghost use Rattle.volume_rules.specs.Rules.{IsLv};
ghost use Rattle.vg_check.specs.Rows.{IsPv};

use crate::open_group::OpenGroup;
use lvm_id::LvmId;
use lvm_name::VolumeName;
use meta_model::{Lv, Pv};

impl OpenGroup {
    // The id of the group itself.
    pub(crate) fn own_id(&self) -> &LvmId
        ensures { result.now ≡ self.now.id }
    {
        &self.id
    }

    // How many physical volumes it has.
    pub(crate) fn pv_count(&self) -> usize
        ensures { result ≡ length self.now.pvs }
    {
        self.pvs.len()
    }

    // The physical volume with this number, counted from 0.
    pub(crate) fn pv(&self, number: usize) -> &Pv
        requires { number < length self.now.pvs }
        ensures { IsPv self.now number result.now }
    {
        self.pvs.get(number).1
    }

    // How many logical volumes it has.
    pub(crate) fn lv_count(&self) -> usize
        ensures { result ≡ length self.now.lvs }
    {
        self.lvs.len()
    }

    // The logical volume with this number, counted from 0.
    pub(crate) fn lv(&self, number: usize) -> &Lv
        requires { number < length self.now.lvs }
        ensures { IsLv self.now number result.now }
    {
        self.lvs.get(number).1
    }

    // The same with its name.
    pub(crate) fn lv_row(&self, number: usize) -> (&VolumeName, &Lv)
        requires { number < length self.now.lvs }
        ensures { slice_get self.now.lvs number ≡ Some (result.0.now, result.1.now) }
    {
        self.lvs.get(number)
    }
}
