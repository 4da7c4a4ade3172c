//! The text of what was found.
ghost use Rattle.std.specs.Prelude.{◌≡◌, ◌++◌, IfOk, flat_map, string_bytes};
ghost use Rattle.lvm_report.specs.Report.{area_lines, header_lines, locn_lines, mda_lines, report_of};

use crate::lines::{
    put_area, put_committed, put_data_areas, put_extension, put_id, put_label, put_precommitted,
    put_refusal, put_size,
};
use disk_contents::{AreaFound, PvFound};
use mda_header::MdaHeader;
use pv_header::PvHeader;
use sector_base::Text;
use std::alloc::{AllocError, Global};

/// The report on what was found. Only memory can be wanting.
pub fn report(alloc: Global, found: &PvFound) -> Result<Text, AllocError>
    ensures { IfOk result (λ text. text ≡ report_of found.now) }
{
    let mut text = String::new(alloc);
    put_found(&mut text, found)?;
    Ok(Text::from_vec(text.into_bytes()))
}

// Appends what was found.
fn put_found(text: &mut String, found: &PvFound) -> Result<(), AllocError>
    ensures { IfOk result (λ _. string_bytes text.new ≡ string_bytes text.old ++ report_of found.now) }
{
    match found {
        PvFound::NoLabel(refusal) => put_refusal(text, refusal),
        PvFound::NoHeader { label, refusal } => {
            put_label(text, *label)?;
            put_refusal(text, refusal)
        }
        PvFound::Whole {
            label,
            header,
            areas,
        } => {
            put_label(text, *label)?;
            put_header(text, header, areas.as_slice())
        }
    }
}

// Appends the header's fields, and its metadata areas.
fn put_header(text: &mut String, header: &PvHeader, areas: &[AreaFound]) -> Result<(), AllocError>
    ensures { IfOk result (λ _. string_bytes text.new ≡ string_bytes text.old ++ header_lines header.now areas.now) }
{
    put_id(text, &header.id)?;
    put_size(text, header.device_bytes)?;
    put_data_areas(text, header.data_areas.as_slice())?;
    put_areas(text, areas)?;
    put_extension(text, header.version, header.flags)
}

// Appends each metadata area with what stands in its header sector.
fn put_areas(text: &mut String, areas: &[AreaFound]) -> Result<(), AllocError>
    ensures { IfOk result (λ _. string_bytes text.new ≡ string_bytes text.old ++ flat_map area_lines areas.now) }
{
    for area in areas {
        put_area_found(text, area)?;
    }
    Ok(())
}

// Appends a metadata area with what stands in its header sector.
fn put_area_found(text: &mut String, found: &AreaFound) -> Result<(), AllocError>
    ensures { IfOk result (λ _. string_bytes text.new ≡ string_bytes text.old ++ area_lines found.now) }
{
    put_area(text, found.area)?;
    match &found.header {
        Ok(header) => put_texts(text, header),
        Err(refusal) => put_refusal(text, refusal),
    }
}

// Appends the texts that a metadata area's header names.
fn put_texts(text: &mut String, header: &MdaHeader) -> Result<(), AllocError>
    ensures { IfOk result (λ _. string_bytes text.new ≡ string_bytes text.old ++ mda_lines header.now) }
{
    if let Some(locn) = header.committed {
        put_committed(text, locn)?;
    }
    if let Some(locn) = header.precommitted {
        put_precommitted(text, locn)?;
    }
    Ok(())
}
