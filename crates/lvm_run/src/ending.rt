//! What ends a run before its lines.
ghost use Rattle.std.specs.Prelude.{◌≡◌, [], ◌++◌, codes, decimal, is_ok};
ghost use Rattle.sector_base.specs.Shown.{shown_text};
ghost use Rattle.byte_streams.specs.Streams.{WritesText};
ghost use Rattle.lvm_run.specs.Endings.{ending_text, status_of_ending};
ghost use Rattle.lvm_run.specs.Endings.{repair_values, script_values, shown_scan};

use crate::disks_refusal::DisksRefusal;
use byte_streams::{Failed, Sink, write_bytes, write_number};
use command_table::LineFault;
use line_answers::{DiskNames, Shown, write_kind};

/// What ends a run before its lines. It prints one line, or none.
#[derive(Debug, Drop)]
pub enum Ending {
    /// The words have no meaning; nothing was done.
    WordsRefused,
    /// Memory was wanting. It prints nothing.
    NoMemory,
    /// A read of the source failed.
    SourceFailed,
    /// The source gives more than 16,777,216 bytes.
    ScriptTooLong,
    /// The line with this number of a script is refused; the fault is at this place in it.
    ScriptRefused {
        line: u64,
        fault: LineFault,
        place: u64,
    },
    /// The opening flush of the disk with this number failed.
    OpenFailed(u32),
    /// A read of the disk with this number failed.
    ScanReadFailed(u32),
    /// The disks aren't taken as they are. Whether each of them was read.
    ScanRefused {
        refusal: DisksRefusal,
        whole: bool,
    },
    /// The label of the disk with this number says that a group uses it, and none is found that lists it or whose stray it is.
    DiskInUse(u32),
    /// A write or flush of the repair failed on the disk with this number.
    RepairFailed(u32),
    /// The text of the group has no room in a stale area of the disk with this number: how many sectors it needs, and how
    /// many there are.
    RepairRefused {
        pv: u32,
        need: u64,
        room: u64,
    },
}

impl Ending {
    /// The exit status where the output was printed whole.
    pub fn status(&self) -> u8
        ensures { result ≡ status_of_ending self.now }
    {
        match self {
            Ending::WordsRefused => 3,
            Ending::NoMemory => 2,
            Ending::SourceFailed => 4,
            Ending::OpenFailed(_) | Ending::ScanReadFailed(_) | Ending::RepairFailed(_) => 6,
            Ending::ScriptTooLong
            | Ending::ScriptRefused { .. }
            | Ending::DiskInUse(_)
            | Ending::RepairRefused { .. } => 5,
            Ending::ScanRefused { whole, .. } => { if *whole { 5 } else { 6 } }
        }
    }

    /// Writes its line, where the disks have these names.
    pub fn write<W: Sink>(&self, out: &mut W, names: &DiskNames) -> Result<(), Failed>
        ensures { WritesText (W.written out.old) (W.fault_count out.old) (ending_text names.now self.now)
            (is_ok result) (W.written out.new) (W.fault_count out.new) }
    {
        match self {
            Ending::WordsRefused => write_bytes(out, b"words refused\n"),
            Ending::NoMemory => write_bytes(out, b""),
            Ending::SourceFailed => write_bytes(out, b"source failed\n"),
            Ending::ScriptTooLong => write_bytes(out, b"script too long\n"),
            Ending::ScriptRefused { line, fault, place } => {
                write_script_refusal(out, *line, *fault, *place)
            }
            Ending::OpenFailed(pv) => write_line(out, b"open failed ", names.bytes_of(*pv)),
            Ending::ScanReadFailed(pv) => {
                write_line(out, b"scan refused ReadFailed ", names.bytes_of(*pv))
            }
            Ending::ScanRefused { refusal, .. } => write_scan_refusal(out, refusal, names),
            Ending::DiskInUse(pv) => write_line(out, b"disk in use ", names.bytes_of(*pv)),
            Ending::RepairFailed(pv) => write_line(out, b"repair failed ", names.bytes_of(*pv)),
            Ending::RepairRefused { pv, need, room } => {
                write_repair_refusal(out, *pv, *need, *room, names)
            }
        }
    }
}

// Writes a line of two parts.
fn write_line<W: Sink>(out: &mut W, first: &[u8], second: &[u8]) -> Result<(), Failed>
    ensures { WritesText (W.written out.old) (W.fault_count out.old) (first.now ++ second.now ++ codes "\n")
        (is_ok result) (W.written out.new) (W.fault_count out.new) }
{
    write_bytes(out, first)?;
    write_bytes(out, second)?;
    write_bytes(out, b"\n")
}

// Writes the line of a refused line of a script.
fn write_script_refusal<W: Sink>(
    out: &mut W,
    line: u64,
    fault: LineFault,
    place: u64,
) -> Result<(), Failed>
    ensures { WritesText (W.written out.old) (W.fault_count out.old) (codes "script line " ++ (decimal line ++ shown_text (codes ":", script_values fault place)) ++ codes "\n")
        (is_ok result) (W.written out.new) (W.fault_count out.new) }
{
    write_bytes(out, b"script line ")?;
    write_fault(out, line, fault, place)?;
    write_bytes(out, b"\n")
}

// Writes the line's number, its fault and the place.
fn write_fault<W: Sink>(out: &mut W, line: u64, fault: LineFault, place: u64) -> Result<(), Failed>
    ensures { WritesText (W.written out.old) (W.fault_count out.old) (decimal line ++ shown_text (codes ":", script_values fault place))
        (is_ok result) (W.written out.new) (W.fault_count out.new) }
{
    write_number(out, line)?;
    write_kind(
        out,
        ":",
        &[Shown::Text(fault.word().as_bytes()), Shown::Number(place)],
    )
}

// Writes the line of a refusal of the scan.
fn write_scan_refusal<W: Sink>(
    out: &mut W,
    refusal: &DisksRefusal,
    names: &DiskNames,
) -> Result<(), Failed>
    ensures { WritesText (W.written out.old) (W.fault_count out.old) (codes "scan refused " ++ shown_text (shown_scan names.now refusal.now) ++ codes "\n")
        (is_ok result) (W.written out.new) (W.fault_count out.new) }
{
    write_bytes(out, b"scan refused ")?;
    refusal.write(out, names)?;
    write_bytes(out, b"\n")
}

// Writes the line of a repair for which there is no room on this disk.
fn write_repair_refusal<W: Sink>(
    out: &mut W,
    pv: u32,
    need: u64,
    room: u64,
    names: &DiskNames,
) -> Result<(), Failed>
    ensures { WritesText (W.written out.old) (W.fault_count out.old) (codes "repair refused" ++ shown_text ([], repair_values names.now pv need room) ++ codes "\n")
        (is_ok result) (W.written out.new) (W.fault_count out.new) }
{
    write_bytes(out, b"repair refused")?;
    write_room(out, pv, need, room, names)?;
    write_bytes(out, b"\n")
}

// Writes the disk, how many sectors are needed there, and how many there are, each behind a space.
fn write_room<W: Sink>(
    out: &mut W,
    pv: u32,
    need: u64,
    room: u64,
    names: &DiskNames,
) -> Result<(), Failed>
    ensures { WritesText (W.written out.old) (W.fault_count out.old) (shown_text ([], repair_values names.now pv need room))
        (is_ok result) (W.written out.new) (W.fault_count out.new) }
{
    let pv = Shown::Text(names.bytes_of(pv));
    write_kind(out, "", &[pv, Shown::Number(need), Shown::Number(room)])
}
