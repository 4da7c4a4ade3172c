//! What all readings come to.
ghost use Rattle.std.specs.Prelude.{◌≡◌};
ghost use Rattle.scan_rules.specs.declared.decision.ScanRefusal.TheVariants.{NoMemory};

use crate::CopyRefusal;
use crate::readings::GroupCopy;
use lvm_id::LvmId;
use sector_base::{ItemList, PvSet};
use std::alloc::{AllocError, AllocFailed};

/// Why no group is taken from the disks: the first of these that holds, in this order.
#[derive(Debug, Drop)]
pub enum ScanRefusal {
    /// Memory was wanting.
    NoMemory,
    /// Both disks have a physical volume with one id.
    DuplicatePv(u32, u32),
    /// No area has a copy of a group, and these were refused, each with its disk.
    NoCopy(ItemList<(u32, CopyRefusal)>),
    /// A copy was found, and the text of an area of this disk agrees with its checksum, but is refused.
    Unsupported(u32),
    /// Copies of two groups were found, with these ids.
    TwoGroups(LvmId, LvmId),
    /// Both disks have copies with this greatest sequence number, whose texts differ.
    Conflict(u32, u32, u64),
    /// A physical volume of the group doesn't lie well on this disk, or no disk of the group holds the copy, and this
    /// one does.
    PvShape(u32),
}

impl From<AllocError> for ScanRefusal {
    ghost from_gives = { λ _ e. e ≡ NoMemory };

    fn from(_e: AllocError) -> ScanRefusal {
        ScanRefusal::NoMemory
    }
}

impl<T: Drop> From<AllocFailed<T>> for ScanRefusal {
    ghost from_gives = { λ _ e. e ≡ NoMemory };

    fn from(_e: AllocFailed<T>) -> ScanRefusal {
        ScanRefusal::NoMemory
    }
}

/// What the disks hold.
#[derive(Debug, Drop)]
pub struct Decided {
    /// The copy that is the group in force; None where there is no group.
    pub copy: Option<GroupCopy>,
    /// The areas that hold anything else, by disk and number of the area there.
    pub stale: ItemList<(u32, u32)>,
    /// The disks that hold something of a group that doesn't list them.
    pub strays: PvSet,
    /// The physical volumes of the group that weren't found, or were away when its text was written.
    pub missing: ItemList<LvmId>,
}
