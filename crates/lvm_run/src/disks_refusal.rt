//! Why the disks of a run aren't taken as they are.
ghost use Rattle.std.specs.Prelude.{◌≡◌, [], ◌∷◌, codes, flat_map, is_ok};
ghost use Rattle.sector_base.specs.Shown.{shown_text};
ghost use Rattle.sector_base.specs.Shown.Value.{text};
ghost use Rattle.lvm_id.specs.LvmId.{hyphen_form};
ghost use Rattle.byte_streams.specs.Streams.{WritesText};
ghost use Rattle.line_answers.specs.Answers.{value_of};
ghost use Rattle.lvm_run.specs.Endings.{id_values, named, refused_values, shown_refusal, shown_scan};

use byte_streams::{Failed, Sink, write_bytes};
use line_answers::{DiskNames, Shown, write_kind};
use lvm_id::LvmId;
use scan_rules::CopyRefusal;
use vg_found::Ids;

/// Why the disks of a run aren't taken as they are.
#[derive(Debug, Drop)]
pub enum DisksRefusal {
    /// The scan refuses them.
    Disks(scan_rules::ScanRefusal),
    /// These physical volumes of the group are missing.
    Partial(Ids),
}

impl DisksRefusal {
    /// Writes it as it is shown, where the disks have these names.
    pub fn write<W: Sink>(&self, out: &mut W, names: &DiskNames) -> Result<(), Failed>
        ensures { WritesText (W.written out.old) (W.fault_count out.old) (shown_text (shown_scan names.now self.now))
            (is_ok result) (W.written out.new) (W.fault_count out.new) }
    {
        match self {
            DisksRefusal::Disks(refusal) => write_refusal(out, refusal, names),
            DisksRefusal::Partial(ids) => write_partial(out, ids.as_slice()),
        }
    }
}

// The name of the disk, as it is shown.
fn name_of<'a>(names: &'a DiskNames, disk: u32) -> Shown<'a>
    ensures { value_of result ≡ named names.now disk }
{
    Shown::Text(names.bytes_of(disk))
}

// Writes the refusal of a scan.
fn write_refusal<W: Sink>(
    out: &mut W,
    refusal: &scan_rules::ScanRefusal,
    names: &DiskNames,
) -> Result<(), Failed>
    ensures { WritesText (W.written out.old) (W.fault_count out.old) (shown_text (shown_refusal names.now refusal.now))
        (is_ok result) (W.written out.new) (W.fault_count out.new) }
{
    match refusal {
        scan_rules::ScanRefusal::NoMemory => write_bytes(out, b""),
        scan_rules::ScanRefusal::DuplicatePv(first, second) => write_kind(
            out,
            "DuplicatePv",
            &[name_of(names, *first), name_of(names, *second)],
        ),
        scan_rules::ScanRefusal::NoCopy(refused) => {
            write_no_copy(out, refused.as_slice(), names)
        }
        scan_rules::ScanRefusal::Unsupported(pv) => {
            write_kind(out, "Unsupported", &[name_of(names, *pv)])
        }
        scan_rules::ScanRefusal::TwoGroups(first, second) => write_two_groups(out, first, second),
        scan_rules::ScanRefusal::Conflict(first, second, seqno) => write_kind(
            out,
            "Conflict",
            &[
                name_of(names, *first),
                name_of(names, *second),
                Shown::Number(*seqno),
            ],
        ),
        scan_rules::ScanRefusal::PvShape(pv) => {
            write_kind(out, "PvShape", &[name_of(names, *pv)])
        }
    }
}

// Writes that no area has a copy, and for each that is refused its disk's name and the refusal's kind.
fn write_no_copy<W: Sink>(
    out: &mut W,
    refused: &[(u32, CopyRefusal)],
    names: &DiskNames,
) -> Result<(), Failed>
    ensures { WritesText (W.written out.old) (W.fault_count out.old) (shown_text (codes "NoCopy", flat_map (refused_values names.now) refused.now))
        (is_ok result) (W.written out.new) (W.fault_count out.new) }
{
    write_bytes(out, b"NoCopy")?;
    for area in refused {
        write_refused(out, area, names)?;
    }
    Ok(())
}

// Writes the disk's name and the kind of the refusal, each behind a space.
fn write_refused<W: Sink>(
    out: &mut W,
    area: &(u32, CopyRefusal),
    names: &DiskNames,
) -> Result<(), Failed>
    ensures { WritesText (W.written out.old) (W.fault_count out.old) (shown_text ([], refused_values names.now area.now))
        (is_ok result) (W.written out.new) (W.fault_count out.new) }
{
    let kind = area.1.kind().as_bytes();
    write_kind(out, "", &[name_of(names, area.0), Shown::Text(kind)])
}

// Writes that copies of the groups with these ids were found.
fn write_two_groups<W: Sink>(out: &mut W, first: &LvmId, second: &LvmId) -> Result<(), Failed>
    ensures { WritesText (W.written out.old) (W.fault_count out.old) (shown_text (codes "TwoGroups", text (hyphen_form first.now) ∷ text (hyphen_form second.now) ∷ []))
        (is_ok result) (W.written out.new) (W.fault_count out.new) }
{
    let first = first.hyphen();
    let second = second.hyphen();
    write_kind(
        out,
        "TwoGroups",
        &[Shown::Text(&first), Shown::Text(&second)],
    )
}

// Writes that the physical volumes with these ids are missing.
fn write_partial<W: Sink>(out: &mut W, ids: &[LvmId]) -> Result<(), Failed>
    ensures { WritesText (W.written out.old) (W.fault_count out.old) (shown_text (codes "Partial", flat_map id_values ids.now))
        (is_ok result) (W.written out.new) (W.fault_count out.new) }
{
    write_bytes(out, b"Partial")?;
    for id in ids {
        write_id(out, id)?;
    }
    Ok(())
}

// Writes the id behind a space.
fn write_id<W: Sink>(out: &mut W, id: &LvmId) -> Result<(), Failed>
    ensures { WritesText (W.written out.old) (W.fault_count out.old) (shown_text ([], id_values id.now))
        (is_ok result) (W.written out.new) (W.fault_count out.new) }
{
    let id = id.hyphen();
    write_kind(out, "", &[Shown::Text(&id)])
}
