//! What a run prints.
ghost use Rattle.std.specs.Prelude.{is_ok};
ghost use Rattle.byte_streams.specs.Streams.{WritesText};
ghost use Rattle.lvm_report.specs.AnswerLines.{answers_text};
ghost use Rattle.lvm_run.specs.Endings.{ending_text};
ghost use Rattle.lvm_run.specs.Outcomes.{text_of};

use crate::ending::Ending;
use byte_streams::{Failed, Sink, TextBuffer, write_all, write_bytes};
use line_answers::{Answer, DiskNames};
use line_table::Answers;
use lvm_report::{answer_lines, write_answered, write_answers};
use sector_base::Text;
use std::alloc::{AllocError, Global};

/// What a run prints.
#[derive(Debug, Drop)]
pub enum Output {
    /// The answers of its lines.
    Answers,
    /// What ended it before its lines.
    Ending(Ending),
    /// That memory was wanting for the line with this number, which wasn't begun.
    NoMemory(u64),
    /// A report.
    Report(Text),
}

impl Output {
    /// Prints it, where the lines have these answers and the disks these names: a report as it is, and lines at once, or in
    /// pieces where there is no memory for their text.
    ///
    /// # Errors
    ///
    /// `Failed` exactly where the sink's count of faults has risen in this call. Then a front of it was written, and not all.
    pub fn print<W: Sink>(
        &self,
        alloc: Global,
        out: &mut W,
        answers: &Answers,
        names: &DiskNames,
    ) -> Result<(), Failed>
        ensures { WritesText (W.written out.old) (W.fault_count out.old) (text_of names.now answers.now.items self.now)
            (is_ok result) (W.written out.new) (W.fault_count out.new) }
    {
        match self {
            Output::Answers => print_answers(alloc, out, answers, names),
            Output::Ending(ending) => print_ending(alloc, out, ending, names),
            Output::NoMemory(line) => write_answered(out, *line, &Answer::NoMemory, names),
            Output::Report(text) => write_all(out, text),
        }
    }
}

// Prints the answers of a run's lines.
fn print_answers<W: Sink>(
    alloc: Global,
    out: &mut W,
    answers: &Answers,
    names: &DiskNames,
) -> Result<(), Failed>
    ensures { WritesText (W.written out.old) (W.fault_count out.old) (answers_text names.now answers.now.items)
        (is_ok result) (W.written out.new) (W.fault_count out.new) }
{
    match answer_lines(alloc, answers, names) {
        Ok(text) => write_all(out, &text),
        Err(AllocError) => write_answers(out, answers, names),
    }
}

// Prints what ended a run before its lines.
fn print_ending<W: Sink>(
    alloc: Global,
    out: &mut W,
    ending: &Ending,
    names: &DiskNames,
) -> Result<(), Failed>
    ensures { WritesText (W.written out.old) (W.fault_count out.old) (ending_text names.now ending.now)
        (is_ok result) (W.written out.new) (W.fault_count out.new) }
{
    let mut line = TextBuffer::new(alloc);
    match ending.write(&mut line, names) {
        Ok(()) => write_bytes(out, line.as_bytes()),
        Err(Failed) => ending.write(out, names),
    }
}
