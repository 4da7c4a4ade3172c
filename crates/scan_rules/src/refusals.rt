//! Areas that were refused.
ghost use Rattle.std.specs.Prelude.{◌≡◌, ◌≤◌, ◌++◌, length, filter_map, IfOk};
ghost use Rattle.std.specs.List.{list_any};
ghost use Rattle.scan_rules.specs.Answers.{unsupported_disk};
ghost use Rattle.scan_rules.specs.Decision.{sum_agrees};
ghost use Rattle.scan_rules.specs.Flat.{areas_on, is_unsupported, refused_in, refused_on};

use crate::CopyRefusal;
use crate::readings::{AreaGives, AreaRead, DiskRead};
use std::alloc::{AllocError, Global};

// The first disk with a text that agrees with its checksum and is refused.
pub(crate) fn find_unsupported(disks: &[DiskRead]) -> Option<u32>
    requires { length disks.now ≤ 64 }
    ensures { result ≡ unsupported_disk disks.now }
{
    for (number, disk) in disks.iter().enumerate() {
        if has_unsupported_text(disk) {
            return Some(number as u32);
        }
    }
    None
}

// Whether the disk has such a text.
fn has_unsupported_text(disk: &DiskRead) -> bool
    ensures { result ≡ list_any is_unsupported (areas_on disk.now) }
{
    match &disk.pv {
        Some(pv) => has_unsupported(pv.areas.as_slice()),
        None => false,
    }
}

// Whether one of the areas has one.
fn has_unsupported(areas: &[AreaRead]) -> bool
    ensures { result ≡ list_any is_unsupported areas.now }
{
    for area in areas {
        if has_refused_text(area) {
            return true;
        }
    }
    false
}

// Whether the area has one.
fn has_refused_text(area: &AreaRead) -> bool
    ensures { result ≡ is_unsupported area.now }
{
    match &area.gives {
        Some(AreaGives::Refused(why)) => agrees(why),
        _ => false,
    }
}

// Whether the text agrees with its checksum.
fn agrees(why: &CopyRefusal) -> bool
    ensures { result ≡ sum_agrees why.now }
{
    match why {
        CopyRefusal::HeaderRefused(_) | CopyRefusal::SumDiffers(_, _) => false,
        CopyRefusal::TextRefused(_) => true,
        CopyRefusal::GroupRefused(_) => true,
        CopyRefusal::RuleBroken(_) => true,
    }
}

// All refusals, each with its disk.
pub(crate) fn all_refusals(
    alloc: Global,
    disks: Vec<DiskRead>,
) -> Result<Vec<(u32, CopyRefusal)>, AllocError>
    requires { length disks.items ≤ 64 }
    ensures { IfOk result (λ refused. refused.items ≡ refused_on 0 disks.items) }
{
    let mut refused = Vec::new(alloc);
    let mut number = 0;
    for disk in disks {
        push_refusals_of(&mut refused, number, disk)?;
        number += 1;
    }
    Ok(refused)
}

// Puts the refusals of the disk's areas behind the others.
fn push_refusals_of(
    refused: &mut Vec<(u32, CopyRefusal)>,
    number: u32,
    disk: DiskRead,
) -> Result<(), AllocError>
    ensures { IfOk result (λ _.
        refused.new.items ≡ refused.old.items ++ filter_map (refused_in number) (areas_on disk)) }
{
    match disk.pv {
        Some(pv) => push_refusals(refused, number, pv.areas.into_vec()),
        None => Ok(()),
    }
}

// Puts the refusals of these areas behind the others.
fn push_refusals(
    refused: &mut Vec<(u32, CopyRefusal)>,
    disk: u32,
    areas: Vec<AreaRead>,
) -> Result<(), AllocError>
    ensures { IfOk result (λ _. refused.new.items ≡ refused.old.items ++ filter_map (refused_in disk) areas.items) }
{
    for area in areas {
        if let Some(refusal) = refusal_of(disk, area) {
            refused.push(refusal)?;
        }
    }
    Ok(())
}

// The refusal of the area, with its disk.
fn refusal_of(disk: u32, area: AreaRead) -> Option<(u32, CopyRefusal)>
    ensures { result ≡ refused_in disk area }
{
    match area.gives {
        Some(AreaGives::Refused(why)) => Some((disk, why)),
        _ => None,
    }
}
