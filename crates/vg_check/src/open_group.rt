//! A group whose room for runs was taken out of it.
ghost use Rattle.std.specs.Prelude.{◌≡◌, ◌≤◌, vec_len};
ghost use Rattle.meta_model.specs.Runs.{run_room};

use lvm_id::LvmId;
use lvm_name::GroupName;
use meta_model::{ExtentSpan, Group, LvRows, LvTable, PvTable, VgStatus};
use std::marker::Model;

// The parts of a group, so that a check can read its volumes while it sorts runs. Contracts see the group.
#[derive(Drop)]
pub(crate) struct OpenGroup {
    pub(crate) name: GroupName,
    pub(crate) id: LvmId,
    pub(crate) seqno: u64,
    pub(crate) status: VgStatus,
    pub(crate) extent_size: u64,
    pub(crate) max_lv: u64,
    pub(crate) max_pv: u64,
    pub(crate) copies: u64,
    pub(crate) pvs: PvTable,
    pub(crate) lvs: LvRows,
}

impl Model for OpenGroup {
    ghost use Rattle.meta_model.specs.declared.group.Group.{Group};

    ghost Value = { Group };

    ghost view = { λ parts. record {
      name = parts.name;
      id = parts.id;
      seqno = parts.seqno;
      status = parts.status;
      extent_size = parts.extent_size;
      max_lv = parts.max_lv;
      max_pv = parts.max_pv;
      copies = parts.copies;
      pvs = parts.pvs;
      lvs = parts.lvs;
    } };
}

// The parts of the group, and its room: a run for each leg and each logical volume. What the runs are isn't said.
pub(crate) fn open(group: Group) -> (OpenGroup, Vec<ExtentSpan>)
    ensures group { result.0 ≡ group }
    ensures room { run_room group.lvs ≤ vec_len result.1 }
{
    let Group {
        name,
        id,
        seqno,
        status,
        extent_size,
        max_lv,
        max_pv,
        copies,
        pvs,
        lvs,
    } = group;
    let (lvs, runs) = lvs.into_parts();
    let group = OpenGroup {
        name,
        id,
        seqno,
        status,
        extent_size,
        max_lv,
        max_pv,
        copies,
        pvs,
        lvs,
    };
    (group, runs)
}

// The group of these parts, with that room.
pub(crate) fn close(group: OpenGroup, runs: Vec<ExtentSpan>) -> Group
    requires { run_room group.lvs ≤ vec_len runs }
    ensures { result ≡ group }
{
    let OpenGroup {
        name,
        id,
        seqno,
        status,
        extent_size,
        max_lv,
        max_pv,
        copies,
        pvs,
        lvs,
    } = group;
    Group {
        name,
        id,
        seqno,
        status,
        extent_size,
        max_lv,
        max_pv,
        copies,
        pvs,
        lvs: LvTable::from_parts(lvs, runs),
    }
}
