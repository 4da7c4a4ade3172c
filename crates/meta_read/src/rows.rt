//! The volumes of a group.
ghost use Rattle.std.specs.Prelude.{[]};
ghost use Rattle.meta_model.specs.Standing.{named, pv_of, lv_of};
ghost use Rattle.meta_model.specs.Tables.{names_of};
ghost use Rattle.meta_read.specs.Reading.{Gives, as_sections};
ghost use Rattle.meta_read.specs.Rows.{name_of, new_name_of, row_of};

use crate::lv::read_lv;
use crate::places::Places;
use crate::pv::read_pv;
use crate::refusals::bad_name;
use crate::sections::NamedSection;
use conf_text::Section;
use lvm_name::{NameRefusal, VolumeName};
use meta_model::{GroupRefusal, Lv, LvTable, Pv, PvTable, Table};
use std::alloc::Global;

/// The physical volumes of these sections.
pub(crate) fn read_pvs(
    alloc: Global,
    sections: &[NamedSection<'_>],
) -> Result<PvTable, GroupRefusal>
    ensures { Gives (named pv_of [] (as_sections sections.now)) result }
{
    let mut table = PvTable::new(alloc);
    for (name, body) in sections {
        let (name, pv) = pv_row(alloc, &table, name, body)?;
        // The name is new, so that memory alone can be wanting.
        if table.push(name, pv).is_err() {
            return Err(GroupRefusal::NoMemory);
        }
    }
    Ok(table)
}

/// The logical volumes of these sections, in a group of so many physical volumes.
pub(crate) fn read_lvs(
    alloc: Global,
    pvs: usize,
    places: &Places<'_>,
    sections: &[NamedSection<'_>],
) -> Result<LvTable, GroupRefusal>
    ensures { Gives (named (lv_of places.now) [] (as_sections sections.now)) result }
{
    let mut table = LvTable::with_room(alloc, pvs)?;
    for (name, body) in sections {
        let (name, lv) = lv_row(alloc, places, &table, name, body)?;
        // The name is new, so that memory alone can be wanting.
        if table.push(name, lv).is_err() {
            return Err(GroupRefusal::NoMemory);
        }
    }
    Ok(table)
}

// A physical volume with its name, which isn't in the table.
fn pv_row(
    alloc: Global,
    table: &PvTable,
    name: &[u8],
    body: &Section<'_>,
) -> Result<(VolumeName, Pv), GroupRefusal>
    ensures { Gives (row_of pv_of (names_of table.now) (name.now, body.now)) result }
{
    let name = new_name(alloc, table, name)?;
    let pv = read_pv(alloc, body)?;
    Ok((name, pv))
}

// A logical volume with its name, which isn't in the table.
fn lv_row(
    alloc: Global,
    places: &Places<'_>,
    table: &LvTable,
    name: &[u8],
    body: &Section<'_>,
) -> Result<(VolumeName, Lv), GroupRefusal>
    ensures { Gives (row_of (lv_of places.now) (names_of table.now) (name.now, body.now)) result }
{
    let name = new_name(alloc, table.rows(), name)?;
    let lv = read_lv(alloc, places, body)?;
    Ok((name, lv))
}

// The name of a volume that isn't among the rows.
fn new_name<T: Drop>(
    alloc: Global,
    rows: &Table<T>,
    name: &[u8],
) -> Result<VolumeName, GroupRefusal>
    ensures { Gives (new_name_of (names_of rows.now) name.now) result }
{
    let volume = volume_name(alloc, name)?;
    if rows.contains(&volume) {
        return Err(bad_name(alloc, name));
    }
    Ok(volume)
}

// The name of a volume.
fn volume_name(alloc: Global, name: &[u8]) -> Result<VolumeName, GroupRefusal>
    ensures { Gives (name_of name.now) result }
{
    match VolumeName::any(alloc, name) {
        Ok(volume) => Ok(volume),
        Err(NameRefusal::NoMemory) => Err(GroupRefusal::NoMemory),
        Err(_) => Err(bad_name(alloc, name)),
    }
}
