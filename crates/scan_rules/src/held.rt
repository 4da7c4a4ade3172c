//! The copies that were found, in the order of the disks and of their areas.
ghost use Rattle.std.specs.Prelude.{◌≡◌, ◌≤◌, ◌++◌, length, filter_map, IfOk};
ghost use Rattle.scan_rules.specs.Flat.{held_in, held_on};

use crate::readings::{AreaGives, AreaRead, DiskRead};
use std::alloc::{AllocError, Global};

// A copy of a group, and a disk that holds it.
#[derive(Clone, Copy, Debug, Drop)]
pub struct HeldCopy {
    pub disk: u32,
    // Which of the copies that were read.
    pub number: usize,
}

// The copies that the disks hold, once for each area.
pub(crate) fn held_copies(alloc: Global, disks: &[DiskRead]) -> Result<Vec<HeldCopy>, AllocError>
    requires { length disks.now ≤ 64 }
    ensures { IfOk result (λ held. held.items ≡ held_on 0 disks.now) }
{
    let mut held = Vec::new(alloc);
    for (number, disk) in disks.iter().enumerate() {
        if let Some(pv) = &disk.pv {
            push_held(&mut held, number as u32, pv.areas.as_slice())?;
        }
    }
    Ok(held)
}

// Puts the copies of these areas behind the others.
fn push_held(held: &mut Vec<HeldCopy>, disk: u32, areas: &[AreaRead]) -> Result<(), AllocError>
    ensures { IfOk result (λ _. held.new.items ≡ held.old.items ++ filter_map (held_in disk) areas.now) }
{
    for area in areas {
        if let Some(copy) = copy_in(disk, area) {
            held.push(copy)?;
        }
    }
    Ok(())
}

// The copy of the area.
fn copy_in(disk: u32, area: &AreaRead) -> Option<HeldCopy>
    ensures { result ≡ held_in disk area.now }
{
    match area.gives {
        Some(AreaGives::Copy(number)) => Some(HeldCopy { disk, number }),
        _ => None,
    }
}
