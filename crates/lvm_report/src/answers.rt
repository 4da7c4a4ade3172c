//! The answers of a run's lines, as text.
ghost use Rattle.std.specs.Prelude.{◌≡◌, ◌++◌, IfOk, codes, decimal, is_ok};
ghost use Rattle.byte_streams.specs.Streams.{WritesText};
ghost use Rattle.line_answers.specs.Answers.{answer_text};
ghost use Rattle.lvm_report.specs.AnswerLines.{answer_line, answers_text};

use byte_streams::{Failed, Sink, TextBuffer, write_bytes, write_number};
use line_answers::{Answer, DiskNames};
use line_table::Answers;
use sector_base::Text;
use std::alloc::{AllocError, Global};

/// Writes the line of each line of a run, in their order: its number, a colon and a space, and its answer, or that it wasn't
/// begun where it has none. The disks have these names.
///
/// # Errors
///
/// `Failed` exactly where the sink's count of faults has risen in this call. Then a front of the text was written, and not
/// all of it.
pub fn write_answers<W: Sink>(
    out: &mut W,
    answers: &Answers,
    names: &DiskNames,
) -> Result<(), Failed>
    ensures { WritesText (W.written out.old) (W.fault_count out.old) (answers_text names.now answers.now.items)
        (is_ok result) (W.written out.new) (W.fault_count out.new) }
{
    for (number, answer) in answers {
        write_line(out, *number, answer, names)?;
    }
    Ok(())
}

/// The same as a text.
///
/// # Errors
///
/// Where memory is wanting.
pub fn answer_lines(alloc: Global, answers: &Answers, names: &DiskNames) -> Result<Text, AllocError>
    ensures { IfOk result (λ text. text ≡ answers_text names.now answers.now.items) }
{
    let mut text = TextBuffer::new(alloc);
    match write_answers(&mut text, answers, names) {
        Ok(()) => Ok(text.into_text()),
        Err(Failed) => Err(AllocError),
    }
}

// Writes the line of the line with this number.
fn write_line<W: Sink>(
    out: &mut W,
    number: u64,
    answer: &Option<Answer>,
    names: &DiskNames,
) -> Result<(), Failed>
    ensures { WritesText (W.written out.old) (W.fault_count out.old) (answer_line names.now (number, answer.now))
        (is_ok result) (W.written out.new) (W.fault_count out.new) }
{
    match answer {
        Some(answer) => write_answered(out, number, answer, names),
        None => write_unbegun(out, number),
    }
}

// Writes that the line with this number wasn't begun.
fn write_unbegun<W: Sink>(out: &mut W, number: u64) -> Result<(), Failed>
    ensures { WritesText (W.written out.old) (W.fault_count out.old) (decimal number ++ codes ": not begun\n")
        (is_ok result) (W.written out.new) (W.fault_count out.new) }
{
    write_number(out, number)?;
    write_bytes(out, b": not begun\n")
}

/// Writes this answer of the line with this number, as its line.
///
/// # Errors
///
/// As [`write_answers`].
pub fn write_answered<W: Sink>(
    out: &mut W,
    number: u64,
    answer: &Answer,
    names: &DiskNames,
) -> Result<(), Failed>
    ensures { WritesText (W.written out.old) (W.fault_count out.old) (decimal number ++ codes ": " ++ answer_text names.now answer.now ++ codes "\n")
        (is_ok result) (W.written out.new) (W.fault_count out.new) }
{
    write_number(out, number)?;
    write_bytes(out, b": ")?;
    answer.write(out, names)?;
    write_bytes(out, b"\n")
}
