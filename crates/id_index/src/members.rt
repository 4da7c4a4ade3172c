//! The physical volumes of a group by their ids.
ghost use Rattle.std.specs.Prelude.{◌≡◌, IfOk, option_map};
ghost use Rattle.id_index.specs.Ids.{lists_id, pv_with};
ghost use Rattle.volume_rules.specs.Rules.{IsAccepted};

use crate::IdMap;
use crate::volumes::pvs_by_id;
use lvm_id::LvmId;
use meta_model::{Group, Pv};
use std::alloc::{AllocError, Global};
use std::marker::Model;
use vg_check::Checked;

/// A group that keeps all rules, whose physical volumes are found by their ids. Contracts see the group.
#[derive(Debug, Drop)]
pub struct Members<'a> {
    group: &'a Group,
    numbers: IdMap,
}

impl<'a> Model for Members<'a> {
    ghost use Rattle.std.specs.Prelude.{◌≡◌};
    ghost use Rattle.id_index.specs.Ids.{pvs_by_id};
    ghost use Rattle.meta_model.specs.declared.group.Group.{Group};
    ghost use Rattle.volume_rules.specs.Rules.{IsAccepted};

    ghost Value = { Group };

    ghost view = { λ members. members.group.now };

    ghost invariant = { λ members. IsAccepted members.group.now × (members.numbers ≡ pvs_by_id 0 members.group.now.pvs) };
}

impl<'a> Members<'a> {
    /// The physical volumes of this group.
    ///
    /// # Errors
    ///
    /// Where memory is wanting.
    pub fn of(alloc: Global, checked: &'a Checked) -> Result<Self, AllocError>
        ensures { IfOk result (λ members. members ≡ checked.now) }
    {
        let group = checked.group();
        let numbers = pvs_by_id(alloc, &group.pvs)?;
        Ok(Members { group, numbers })
    }

    /// The group.
    pub fn group(&self) -> &Group
        ensures group { result.now ≡ self.now }
        ensures accepted { IsAccepted result.now }
    {
        self.group
    }

    /// Whether one has the id.
    pub fn has(&self, id: &LvmId) -> bool
        ensures { result ≡ lists_id self.now.pvs id.now }
    {
        self.numbers.contains(id)
    }

    /// The one with the id, where there is one.
    pub fn get(&self, id: &LvmId) -> Option<&Pv>
        ensures { option_map (λ pv. pv.now) result ≡ pv_with self.now.pvs id.now }
    {
        match self.numbers.get(id) {
            Some(number) => Some(self.group.pvs.get(number as usize).1),
            None => None,
        }
    }
}
