//! Lines with the text of the source.
ghost use Rattle.lvm_run.specs.Sourced.{IsSourced, source};

use crate::ending::Ending;
use byte_streams::{ReadFault, Source, read_all};
use command_table::Command;
use lvm_script::Line;
use std::alloc::Global;

/// The line with the text that the source gives, which is read to its end, where the line restores a group from it; any other
/// line as it is, with the source left as it was.
///
/// # Errors
///
/// - `SourceFailed` only where the source's count of faults has risen in this call.
/// - `ScriptTooLong` exactly where the source gives more than 16,777,216 bytes.
/// - `NoMemory` where memory is wanting.
pub fn with_source<R: Source>(alloc: Global, script: &mut R, line: Line) -> Result<Line, Ending>
    ensures { IsSourced line (source (R.left script.old) (R.fault_count script.old)) result (source (R.left script.new) (R.fault_count script.new)) }
{
    let Command::Vgcfgrestore { .. } = &line.command else {
        return Ok(line);
    };
    match read_all(alloc, script) {
        Ok(text) => Ok(line.with_text(text)),
        Err(ReadFault::NoMemory) => Err(Ending::NoMemory),
        Err(ReadFault::Failed) => Err(Ending::SourceFailed),
        Err(ReadFault::ScriptTooLong) => Err(Ending::ScriptTooLong),
    }
}
