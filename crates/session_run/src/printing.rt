//! What is printed of a session.
ghost use Rattle.std.specs.Prelude.{◌++◌, is_ok};
ghost use Rattle.byte_streams.specs.Streams.{WritesText};
ghost use Rattle.lvm_report.specs.AnswerLines.{answers_text};

use byte_streams::{Failed, Sink, write_all};
use line_answers::DiskNames;
use line_table::Answers;
use lvm_report::{answer_lines, write_answers};
use std::alloc::{AllocError, Global};

/// Writes the line of each line of a session: those that were begun, then the others. The text of each part goes out at once where
/// there is memory for it, else piece by piece.
///
/// # Errors
///
/// `Failed` exactly where the sink's count of faults has risen in this call. Then a front of the text was written, and not all.
pub fn write_lines<W: Sink>(
    alloc: Global,
    out: &mut W,
    answers: &Answers,
    unbegun: &Answers,
    names: &DiskNames,
) -> Result<(), Failed>
    ensures { WritesText (W.written out.old) (W.fault_count out.old) (answers_text names.now (answers.now.items ++ unbegun.now.items))
        (is_ok result) (W.written out.new) (W.fault_count out.new) }
{
    write_part(alloc, out, answers, names)?;
    write_part(alloc, out, unbegun, names)
}

// Writes the line of each of these lines.
fn write_part<W: Sink>(
    alloc: Global,
    out: &mut W,
    answers: &Answers,
    names: &DiskNames,
) -> Result<(), Failed>
    ensures { WritesText (W.written out.old) (W.fault_count out.old) (answers_text names.now answers.now.items)
        (is_ok result) (W.written out.new) (W.fault_count out.new) }
{
    match answer_lines(alloc, answers, names) {
        Ok(text) => write_all(out, &text),
        Err(AllocError) => write_answers(out, answers, names),
    }
}
