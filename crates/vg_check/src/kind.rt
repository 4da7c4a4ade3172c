//! The ids of the volumes of one kind.
ghost use Rattle.std.specs.Prelude.{◌≡◌, length};
ghost use Rattle.vg_check.specs.Ids.{id_of, kind_ids};

use crate::open_group::OpenGroup;
use lvm_id::LvmId;

// Physical or logical volumes.
#[derive(Clone, Copy)]
pub(crate) enum Kind {
    Pv,
    Lv,
}

// How many volumes of the kind there are.
pub(crate) fn count(group: &OpenGroup, kind: Kind) -> usize
    ensures { result ≡ length (kind_ids group.now kind) }
{
    match kind {
        Kind::Pv => group.pv_count(),
        Kind::Lv => group.lv_count(),
    }
}

// The id of the volume with this number, and that of the group where there is none.
pub(crate) fn id_at(group: &OpenGroup, kind: Kind, number: u64) -> LvmId
    ensures { result ≡ id_of group.now kind number }
{
    let number = number as usize;
    if number >= count(group, kind) {
        return group.id;
    }
    match kind {
        Kind::Pv => group.pv(number).id,
        Kind::Lv => group.lv(number).id,
    }
}

// Its 32 characters.
pub(crate) fn key_at(group: &OpenGroup, kind: Kind, number: u64) -> [u8; 32]
    ensures { result ≡ id_of group.now kind number }
{
    id_at(group, kind, number).plain()
}
