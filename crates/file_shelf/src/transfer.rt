//! What a file does for an operation.
ghost use Rattle.std.specs.Prelude.{◌≡◌, ◌≤◌, ◌↔◌, ◌+◌, ◌*◌, ◌^◌, ℕ, List, length, IsOk, IsTrue};
ghost use Rattle.disk_model.specs.Operations.{Lies, work_of};
ghost use Rattle.file_shelf.specs.Bytes.{IsInFile};

use crate::adjacent::Run;
use crate::copying::{SECTOR, gather, scatter};
use disk_model::Op;
use sector_base::Sectors;
use std::fs::OpenFile;
use std::io;
use std::os::unix::fs::FileExt;

/// How many bytes are read or written at once.
pub const AT_ONCE: usize = 65_536;

// The place of a sector in its file, in bytes.
fn offset(sector: u64) -> u64
    requires { sector ≤ 2 ^ 40 }
    ensures { result ≡ 512 * sector }
{
    512 * sector
}

// Reads from the sector `first` on until all are filled. What comes after a fault stays.
fn read_span<F: FileExt>(
    file: &F,
    first: u64,
    into: &mut Sectors,
    bytes: &mut [u8],
) -> io::Result<()>
    requires within { first + length into.old ≤ 2 ^ 40 }
    requires room { length bytes.old ≡ AT_ONCE }
    ensures { length into.new ≡ length into.old }
{
    let mut done = 0;
    while done < into.len() {
        let count = (into.len() - done).min(AT_ONCE / SECTOR);
        let piece = &mut bytes[..SECTOR * count];
        file.read_exact_at(piece, offset(first + done as u64))?;
        scatter(piece, into, done, count);
        done += count;
    }
    Ok(())
}

// Writes all, from the sector `first` on, up to a fault.
fn write_span<F: FileExt>(file: &F, first: u64, from: &Sectors, bytes: &mut [u8]) -> io::Result<()>
    requires within { first + length from.now ≤ 2 ^ 40 }
    requires room { length bytes.old ≡ AT_ONCE }
{
    let mut done = 0;
    while done < from.len() {
        let count = (from.len() - done).min(AT_ONCE / SECTOR);
        let piece = &mut bytes[..SECTOR * count];
        gather(from, done, count, piece);
        file.write_all_at(piece, offset(first + done as u64))?;
        done += count;
    }
    Ok(())
}

// Whether all was done that was asked of the system.
fn is_well(told: io::Result<()>) -> bool
    ensures { IsTrue result ↔ IsOk told }
{
    told.is_ok()
}

/// Reads or writes the sectors of the run by one call, and goes on where that did a part. What is written stands first in the
/// bytes, and what is read last.
pub fn carry_out_run<F: FileExt>(file: &F, run: Run, bytes: &mut [u8]) -> bool
    requires within { run.first ≤ 2 ^ 40 }
    requires fits { 512 * run.sectors ≤ AT_ONCE }
    requires room { length bytes.old ≡ AT_ONCE }
{
    let count = SECTOR * run.sectors;
    let at = offset(run.first);
    is_well(if run.writes {
        file.write_all_at(&bytes[..count], at)
    } else {
        file.read_exact_at(&mut bytes[AT_ONCE - count..], at)
    })
}

/// Carries the operation out, and says whether it went well. A flush syncs the file.
pub fn carry_out<F: FileExt + OpenFile>(file: &F, op: Op, bytes: &mut [u8]) -> (Op, bool)
    requires within { IsInFile op }
    requires room { length bytes.old ≡ AT_ONCE }
    ensures work { work_of result.0 ≡ work_of op }
    ensures lies { (sizes : List ℕ) → Lies sizes op → Lies sizes result.0 }
{
    match op {
        Op::Read(span, buffer) => {
            let mut buffer = buffer;
            let told = read_span(file, span.first, &mut buffer, bytes);
            (Op::Read(span, buffer), is_well(told))
        }
        Op::Write(span, sectors) => {
            let told = write_span(file, span.first, &sectors, bytes);
            (Op::Write(span, sectors), is_well(told))
        }
        Op::Flush(pv) => (Op::Flush(pv), is_well(file.sync_all())),
    }
}
