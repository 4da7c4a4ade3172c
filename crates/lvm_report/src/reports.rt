//! The reports on what a scan found.
ghost use Rattle.std.specs.Prelude.{◌≡◌, IfOk};
ghost use Rattle.vg_found.specs.Shape.{HasShape};
ghost use Rattle.lvm_report.specs.Reports.{lvs_text, or_ok, pvs_text, vgck_text, vgs_text};

use crate::group_line::put_group;
use crate::pv_lines::put_disks;
use crate::vgck_lines::put_faults;
use crate::volume_lines::put_volumes;
use line_answers::DiskNames;
use sector_base::Text;
use std::alloc::{AllocError, Global};
use vg_found::Found;

/// The report of pvs(8): a line for each disk with a physical volume, with its name (left in 20 places), its group or `-`
/// (left in 16), how many extents it has there and how many of them are free (right in 10); of a disk that is unread
/// `NAME unreadable`. The disks have these names.
///
/// # Errors
///
/// Where memory is wanting.
pub fn pvs(alloc: Global, found: &Found, names: &DiskNames) -> Result<Text, AllocError>
    requires { HasShape found.now }
    ensures { IfOk result (λ text. text ≡ pvs_text found.now names.now) }
{
    let mut text = Vec::new(alloc);
    put_disks(alloc, &mut text, found, names)?;
    Ok(Text::from_vec(text))
}

/// The report of vgs(8): a line for the group in force, with its name (left in 16 places), how many physical and how many
/// visible logical volumes it has (right in 6), its sequence number, how many extents it has and how many of them are free
/// (right in 10).
///
/// # Errors
///
/// Where memory is wanting.
pub fn vgs(alloc: Global, found: &Found) -> Result<Text, AllocError>
    requires { HasShape found.now }
    ensures { IfOk result (λ text. text ≡ vgs_text found.now) }
{
    let mut text = Vec::new(alloc);
    if let Some(group) = &found.group {
        put_group(alloc, &mut text, group.group())?;
    }
    Ok(Text::from_vec(text))
}

/// The report of lvs(8): a line for each visible volume, in the order of the text, with its name and its group (left in 16
/// places), its kind (left in 6) and how many sectors it has (right in 12). The kind is `moving` for a volume from which legs
/// lead down to the volume of a move, else `linear`, `stripe` or `mirror` by its first segment.
///
/// # Errors
///
/// Where memory is wanting.
pub fn lvs(alloc: Global, found: &Found) -> Result<Text, AllocError>
    requires { HasShape found.now }
    ensures { IfOk result (λ text. text ≡ lvs_text found.now) }
{
    let mut text = Vec::new(alloc);
    if let Some(group) = &found.group {
        put_volumes(alloc, &mut text, group.group())?;
    }
    Ok(Text::from_vec(text))
}

/// The report of vgck(8): `stale PV` for each disk of the group with an area that holds anything else than its copy,
/// `stray PV`, `old PV` for each of its disks whose header is of an older version than 2, `missing ID`, `unknown key PATH` and
/// `unreadable PV`, each on a line of its own and each kind in that order; or `ok` where there is none. The disks have these
/// names.
///
/// # Errors
///
/// Where memory is wanting.
pub fn vgck(alloc: Global, found: &Found, names: &DiskNames) -> Result<Text, AllocError>
    requires { HasShape found.now }
    ensures { IfOk result (λ text. text ≡ vgck_text found.now names.now) }
{
    let mut text = Vec::new(alloc);
    put_faults(&mut text, found, names)?;
    put_ok(&mut text)?;
    Ok(Text::from_vec(text))
}

// Appends `ok` where the text is empty.
fn put_ok(text: &mut Vec<u8>) -> Result<(), AllocError>
    ensures { IfOk result (λ _. text.new.items ≡ or_ok text.old.items) }
{
    if text.is_empty() {
        text.extend_from_slice(b"ok\n")
    } else {
        Ok(())
    }
}
