//! Copies of what a line or a state has, where there is memory for them.
ghost use Rattle.std.specs.Prelude.{◌≡◌, None, IfOk};
ghost use Rattle.lvm_name.specs.Names.{group_name_refusal, volume_name_refusal};

use lvm_name::{GroupName, NameRefusal, VolumeName};
use sector_base::{PvDisks, Text};
use std::alloc::{AllocError, Global};

/// The same text again.
///
/// # Errors
///
/// Where memory is wanting.
pub fn copied_text(alloc: Global, text: &Text) -> Result<Text, AllocError>
    ensures { IfOk result (λ copy. copy ≡ text.now) }
{
    copied_bytes(alloc, text.as_bytes())
}

/// The text of these bytes.
///
/// # Errors
///
/// Where memory is wanting.
pub fn copied_bytes(alloc: Global, bytes: &[u8]) -> Result<Text, AllocError>
    ensures { IfOk result (λ text. text ≡ bytes.now) }
{
    Ok(Text::from_vec(Vec::from_slice(alloc, bytes)?))
}

/// The same disks again.
///
/// # Errors
///
/// Where memory is wanting.
pub fn copied_disks(alloc: Global, disks: &PvDisks) -> Result<PvDisks, AllocError>
    ensures { IfOk result (λ copy. copy ≡ disks.now) }
{
    Ok(PvDisks::from_vec(Vec::from_slice(alloc, disks.as_slice())?))
}

/// A group's name.
///
/// # Errors
///
/// Where memory is wanting.
pub fn group_name(alloc: Global, vg: &Text) -> Result<GroupName, AllocError>
    requires { group_name_refusal vg.now ≡ None }
    ensures { IfOk result (λ name. name ≡ vg.now) }
{
    match GroupName::new(alloc, vg.as_bytes()) {
        Ok(name) => Ok(name),
        Err(NameRefusal::NoMemory) => Err(AllocError),
        Err(_) => unreachable!(),
    }
}

/// A logical volume's name that a user gave.
///
/// # Errors
///
/// Where memory is wanting.
pub fn volume_name(alloc: Global, lv: &Text) -> Result<VolumeName, AllocError>
    requires { volume_name_refusal lv.now ≡ None }
    ensures { IfOk result (λ name. name ≡ lv.now) }
{
    match VolumeName::new(alloc, lv.as_bytes()) {
        Ok(name) => Ok(name),
        Err(NameRefusal::NoMemory) => Err(AllocError),
        Err(_) => unreachable!(),
    }
}
