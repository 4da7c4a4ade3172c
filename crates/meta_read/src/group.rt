//! The group that a section stands for.
ghost use Rattle.std.specs.Prelude.{◌≡◌, map};
ghost use Rattle.conf_text.specs.Items.{items};
ghost use Rattle.meta_model.specs.Keys.{only_text};
ghost use Rattle.meta_model.specs.Standing.{sections_of, vg_status};
ghost use Rattle.meta_model.specs.declared.refusal.GroupRefusal.TheVariants.{Foreign};
ghost use Rattle.meta_read.specs.Reading.{Gives, as_bytes, as_sections};
ghost use Rattle.meta_read.specs.Rows.{volumes_of};
ghost use Rattle.meta_read.specs.Parts.{group_by_parts, head_of, copies_of, tables_of};

use crate::ids::required_id;
use crate::keys::{has_only_text, number_or, required_number, required_section, section_or_empty};
use crate::places::Places;
use crate::refusals::foreign;
use crate::rows::{read_lvs, read_pvs};
use crate::sections::{NamedSection, sections_in};
use crate::words::{has_word, required_status, words_if_any};
use bitflags::Flags;
use conf_text::Section;
use lvm_id::LvmId;
use lvm_name::GroupName;
use meta_model::{Group, GroupRefusal, LvTable, PvTable, VgStatus, VgWords};
use std::alloc::Global;

// The status words of a group. The last one decides nothing.
const VG_WORDS: [&[u8]; 4] = [b"RESIZEABLE", b"READ", b"WRITE", b"PVMOVE"];

// What stands first in a group.
#[derive(Drop)]
struct Head {
    id: LvmId,
    seqno: u64,
    status: VgStatus,
    extent_size: u64,
    max_lv: u64,
    max_pv: u64,
}

/// The group with this name that the section stands for.
pub(crate) fn read_group(
    alloc: Global,
    name: GroupName,
    section: &Section<'_>,
) -> Result<Group, GroupRefusal>
    ensures { Gives (group_by_parts name (items section.now)) result }
{
    let head = read_head(alloc, section)?;
    let copies = read_copies(alloc, section)?;
    let (pvs, lvs) = read_tables(alloc, section)?;
    Ok(Group {
        name,
        id: head.id,
        seqno: head.seqno,
        status: head.status,
        extent_size: head.extent_size,
        max_lv: head.max_lv,
        max_pv: head.max_pv,
        copies,
        pvs,
        lvs,
    })
}

fn read_head(alloc: Global, section: &Section<'_>) -> Result<Head, GroupRefusal>
    ensures { Gives (head_of (items section.now)) result }
{
    let id = required_id(alloc, section, b"id")?;
    let seqno = required_number(alloc, section, b"seqno")?;
    let extent_size = required_number(alloc, section, b"extent_size")?;
    let max_lv = required_number(alloc, section, b"max_lv")?;
    let max_pv = required_number(alloc, section, b"max_pv")?;
    let status = required_status(alloc, section, b"status", &VG_WORDS)?;
    Ok(Head {
        id,
        seqno,
        status: status_of(&status),
        extent_size,
        max_lv,
        max_pv,
    })
}

// How many copies are wanted, of a group that is of this kind.
fn read_copies(alloc: Global, section: &Section<'_>) -> Result<u64, GroupRefusal>
    ensures { Gives (copies_of (items section.now)) result }
{
    own_text(alloc, section, b"format", b"lvm2")?;
    own_text(alloc, section, b"system_id", b"")?;
    own_text(alloc, section, b"lock_type", b"none")?;
    words_if_any(alloc, section, b"flags")?;
    number_or(alloc, section, b"metadata_copies", 0)
}

fn read_tables(alloc: Global, section: &Section<'_>) -> Result<(PvTable, LvTable), GroupRefusal>
    ensures { Gives (tables_of (items section.now)) result }
{
    let pv_section = required_section(alloc, section, b"physical_volumes")?;
    let lv_section = section_or_empty(alloc, section, b"logical_volumes")?;
    read_volumes(alloc, &pv_section, &lv_section)
}

// The volumes of these two sections.
fn read_volumes(
    alloc: Global,
    pv_section: &Section<'_>,
    lv_section: &Section<'_>,
) -> Result<(PvTable, LvTable), GroupRefusal>
    ensures { Gives (volumes_of (sections_of (items pv_section.now)) (sections_of (items lv_section.now))) result }
{
    let pv_sections = sections_in(alloc, pv_section)?;
    let lv_sections = sections_in(alloc, lv_section)?;
    all_volumes(alloc, &pv_sections, &lv_sections)
}

fn all_volumes(
    alloc: Global,
    pv_sections: &[NamedSection<'_>],
    lv_sections: &[NamedSection<'_>],
) -> Result<(PvTable, LvTable), GroupRefusal>
    ensures { Gives (volumes_of (as_sections pv_sections.now) (as_sections lv_sections.now)) result }
{
    let pvs = read_pvs(alloc, pv_sections)?;
    let places = Places::new(alloc, pv_sections, lv_sections)?;
    let lvs = read_lvs(alloc, pvs.len(), &places, lv_sections)?;
    Ok((pvs, lvs))
}

// The string of a key is this one, where the key stands.
fn own_text(
    alloc: Global,
    section: &Section<'_>,
    key: &[u8],
    wanted: &[u8],
) -> Result<(), GroupRefusal>
    ensures { Gives (only_text wanted.now (λ key. Foreign key) key.now (items section.now)) result }
{
    if has_only_text(section, key, wanted) {
        Ok(())
    } else {
        Err(foreign(alloc, key))
    }
}

fn status_of(words: &[&[u8]]) -> VgStatus
    ensures { result ≡ vg_status (map as_bytes words.now) }
{
    let mut set = VgWords::empty();
    set.set(VgWords::RESIZEABLE, has_word(words, b"RESIZEABLE"));
    set.set(VgWords::READ, has_word(words, b"READ"));
    set.set(VgWords::WRITE, has_word(words, b"WRITE"));
    VgStatus::of(set)
}
