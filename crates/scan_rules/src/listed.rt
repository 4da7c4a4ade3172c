//! Which disks the group lists.
ghost use Rattle.std.specs.Prelude.{◌≡◌, []};
ghost use Rattle.scan_rules.specs.Decision.{is_listed, lists};
ghost use Rattle.scan_rules.specs.Readings.{reading_of};

use crate::readings::DiskRead;
use id_index::Members;
use lvm_id::LvmId;

// Whether the group lists the disk's physical volume.
pub(crate) fn lists_disk(members: &Members<'_>, disk: &DiskRead) -> bool
    ensures { result ≡ is_listed members.now (reading_of [] disk.now) }
{
    match &disk.pv {
        Some(pv) => lists_id(members, &pv.id),
        None => false,
    }
}

// Whether the group lists a physical volume with this id.
pub(crate) fn lists_id(members: &Members<'_>, id: &LvmId) -> bool
    ensures { result ≡ lists members.now id.now }
{
    members.has(id)
}
