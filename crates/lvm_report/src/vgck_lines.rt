//! The lines of vgck: one for each thing that isn't in order.
ghost use Rattle.std.specs.Prelude.{◌≡◌, ◌≤◌, ◌++◌, IfOk, [], codes, flat_map, if◌then◌else◌};
ghost use Rattle.std.specs.FinSet as set;
ghost use Rattle.lvm_id.specs.LvmId.{hyphen_form};
ghost use Rattle.vg_found.specs.Shape.{HasShape};
ghost use Rattle.lvm_report.specs.Reports.{disk_lines, faults_text, name_in};

use line_answers::DiskNames;
use lvm_id::LvmId;
use meta_read::Unknown;
use sector_base::{PvSet, Text};
use std::alloc::AllocError;
use vg_found::{Found, stale_disks};

/// Appends a line for each disk with a stale area, each stray, each disk with an old header, each missing physical volume, each
/// key that is passed over and each disk that is unread.
pub fn put_faults(text: &mut Vec<u8>, found: &Found, names: &DiskNames) -> Result<(), AllocError>
    requires { HasShape found.now }
    ensures { IfOk result (λ _. text.new.items ≡ text.old.items ++ faults_text found.now names.now) }
{
    let stale = stale_disks(found.stale.as_slice());
    put_set(text, b"stale ", found.disks.len(), &stale, names)?;
    put_set(text, b"stray ", found.disks.len(), &found.strays, names)?;
    put_set(text, b"old ", found.disks.len(), &found.old, names)?;
    put_missing(text, found.missing.as_slice())?;
    put_unknown(text, &found.unknown)?;
    put_set(
        text,
        b"unreadable ",
        found.disks.len(),
        &found.unread,
        names,
    )
}

// Appends a line for each of so many disks that is among these, behind this word.
fn put_set(
    text: &mut Vec<u8>,
    word: &[u8],
    disks: usize,
    pvs: &PvSet,
    names: &DiskNames,
) -> Result<(), AllocError>
    requires { disks ≤ 64 }
    ensures { IfOk result (λ _. text.new.items ≡ text.old.items ++ disk_lines word.now names.now disks (set.contains pvs.now)) }
{
    for number in 0..disks as u32 {
        put_disk_if(text, pvs.contains(number), word, names, number)?;
    }
    Ok(())
}

// Appends the name of the disk behind this word, if it is to be listed.
fn put_disk_if(
    text: &mut Vec<u8>,
    is_listed: bool,
    word: &[u8],
    names: &DiskNames,
    disk: u32,
) -> Result<(), AllocError>
    ensures { IfOk result (λ _. text.new.items ≡ text.old.items ++ (if is_listed then word.now ++ name_in names.now disk ++ codes "\n" else [])) }
{
    if is_listed {
        put_disk(text, word, names, disk)
    } else {
        Ok(())
    }
}

// Appends the name of the disk behind this word.
fn put_disk(text: &mut Vec<u8>, word: &[u8], names: &DiskNames, disk: u32) -> Result<(), AllocError>
    ensures { IfOk result (λ _. text.new.items ≡ text.old.items ++ word.now ++ name_in names.now disk ++ codes "\n") }
{
    text.extend_from_slice(word)?;
    text.extend_from_slice(names.bytes_of(disk))?;
    text.extend_from_slice(b"\n")
}

// Appends a line for each of these ids.
fn put_missing(text: &mut Vec<u8>, ids: &[LvmId]) -> Result<(), AllocError>
    ensures { IfOk result (λ _. text.new.items ≡ text.old.items ++ flat_map (λ id. codes "missing " ++ hyphen_form id ++ codes "\n") ids.now) }
{
    for id in ids {
        text.extend_from_slice(b"missing ")?;
        text.extend_from_slice(&id.hyphen())?;
        text.extend_from_slice(b"\n")?;
    }
    Ok(())
}

// Appends a line for each of these paths.
fn put_unknown(text: &mut Vec<u8>, paths: &Unknown) -> Result<(), AllocError>
    ensures { IfOk result (λ _. text.new.items ≡ text.old.items ++ flat_map (λ path. codes "unknown key " ++ path ++ codes "\n") paths.now) }
{
    for number in 0..paths.len() {
        put_key(text, paths.get(number))?;
    }
    Ok(())
}

// Appends the line of this path.
fn put_key(text: &mut Vec<u8>, path: &Text) -> Result<(), AllocError>
    ensures { IfOk result (λ _. text.new.items ≡ text.old.items ++ (codes "unknown key " ++ path.now ++ codes "\n")) }
{
    text.extend_from_slice(b"unknown key ")?;
    text.extend_from_slice(path.as_bytes())?;
    text.extend_from_slice(b"\n")
}
