//! The lines of a report on what was found and on what was refused.
ghost use Rattle.std.specs.Prelude.{◌≡◌, ◌++◌, IfOk, IfSome, codes, flat_map, string_bytes};
ghost use Rattle.lvm_report.specs.Lines.{area_line, committed_line, data_line, extension_line, id_line, label_line, precommitted_line, size_line};

use lvm_id::LvmId;
use mda_header::Locn;
use pv_header::Extent;
use std::alloc::AllocError;
use std::fmt;

/// Appends in which sector the label is.
pub fn put_label(text: &mut String, sector: u32) -> Result<(), AllocError>
    ensures { IfOk result (λ _. string_bytes text.new ≡ string_bytes text.old ++ label_line sector) }
{
    writeln!(text, "label {sector}")
}

/// Appends the id of the physical volume, in groups with hyphens.
pub fn put_id(text: &mut String, id: &LvmId) -> Result<(), AllocError>
    ensures { IfOk result (λ _. string_bytes text.new ≡ string_bytes text.old ++ id_line id.now) }
{
    writeln!(text, "id {id}")
}

/// Appends the device's size in bytes.
pub fn put_size(text: &mut String, bytes: u64) -> Result<(), AllocError>
    ensures { IfOk result (λ _. string_bytes text.new ≡ string_bytes text.old ++ size_line bytes) }
{
    writeln!(text, "size {bytes}")
}

/// Appends a line for each data area.
pub fn put_data_areas(text: &mut String, areas: &[Extent]) -> Result<(), AllocError>
    ensures { IfOk result (λ _. string_bytes text.new ≡ string_bytes text.old ++ flat_map data_line areas.now) }
{
    for area in areas {
        put_data(text, *area)?;
    }
    Ok(())
}

// Appends where a data area lies.
fn put_data(text: &mut String, area: Extent) -> Result<(), AllocError>
    ensures { IfOk result (λ _. string_bytes text.new ≡ string_bytes text.old ++ data_line area) }
{
    writeln!(text, "data {} {}", area.offset, area.size)
}

/// Appends where a metadata area lies.
pub fn put_area(text: &mut String, area: Extent) -> Result<(), AllocError>
    ensures { IfOk result (λ _. string_bytes text.new ≡ string_bytes text.old ++ area_line area) }
{
    writeln!(text, "area {} {}", area.offset, area.size)
}

/// Appends where the committed text stands, and its checksum.
pub fn put_committed(text: &mut String, locn: Locn) -> Result<(), AllocError>
    ensures { IfOk result (λ _. string_bytes text.new ≡ string_bytes text.old ++ committed_line locn) }
{
    writeln!(
        text,
        "committed {} {} {:08x}",
        locn.offset, locn.size, locn.sum
    )
}

/// Appends where the precommitted text stands, and its checksum.
pub fn put_precommitted(text: &mut String, locn: Locn) -> Result<(), AllocError>
    ensures { IfOk result (λ _. string_bytes text.new ≡ string_bytes text.old ++ precommitted_line locn) }
{
    writeln!(
        text,
        "precommitted {} {} {:08x}",
        locn.offset, locn.size, locn.sum
    )
}

/// Appends the version and the flags of the header's extension.
pub fn put_extension(text: &mut String, version: u32, flags: u32) -> Result<(), AllocError>
    ensures { IfOk result (λ _. string_bytes text.new ≡ string_bytes text.old ++ extension_line version flags) }
{
    writeln!(text, "extension {version} {flags}")
}

/// Appends a refusal: its kind and its values.
pub fn put_refusal<R: fmt::Display>(text: &mut String, refusal: &R) -> Result<(), AllocError>
    ensures { IfSome (R.output refusal.now) (λ shown. IfOk result (λ _. string_bytes text.new ≡ string_bytes text.old ++ codes "refused " ++ shown ++ codes "\n")) }
{
    writeln!(text, "refused {refusal}")
}
