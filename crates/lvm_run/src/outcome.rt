//! What a run comes to.
ghost use Rattle.std.specs.Prelude.{◌≡◌};
ghost use Rattle.lvm_run.specs.Outcomes.{is_report, status_of, status_of_answer, status_unprinted};

use crate::ending::Ending;
use line_answers::Answer;
use sector_base::Text;

/// What a run comes to.
#[derive(Debug, Drop)]
pub enum Outcome {
    /// It ended before its lines.
    Ended(Ending),
    /// The line with this number answered.
    Answered(u64, Answer),
    /// The command's report. Whether each disk was read.
    Reported { text: Text, whole: bool },
}

impl Outcome {
    /// Whether it is a report.
    pub fn is_report(&self) -> bool
        ensures { result ≡ is_report self.now }
    {
        matches!(self, Outcome::Reported { .. })
    }

    /// The exit status where the output was printed whole.
    pub fn status(&self) -> u8
        ensures { result ≡ status_of self.now }
    {
        match self {
            Outcome::Ended(ending) => ending.status(),
            Outcome::Answered(_, answer) => status_of(answer),
            Outcome::Reported { whole, .. } => { if *whole { 0 } else { 6 } }
        }
    }

    /// The exit status where the sink failed: 7, but all the same 3 for words without a meaning, 2 for want of memory, and 4
    /// where the source failed.
    pub fn status_unprinted(&self) -> u8
        ensures { result ≡ status_unprinted self.now }
    {
        match self {
            Outcome::Ended(Ending::WordsRefused) => 3,
            Outcome::Ended(Ending::NoMemory) | Outcome::Answered(_, Answer::NoMemory) => 2,
            Outcome::Ended(Ending::SourceFailed) => 4,
            _ => 7,
        }
    }
}

// The exit status of an answer.
fn status_of(answer: &Answer) -> u8
    ensures { result ≡ status_of_answer answer.now }
{
    match answer {
        Answer::Refused(_) => 5,
        Answer::ReadFailed(_) | Answer::PvFailed(_) | Answer::Fenced(_) | Answer::Stopped(_) => 6,
        Answer::NoMemory => 2,
        Answer::Fine | Answer::Read(_) | Answer::Listed(_) | Answer::Aborted => 0,
    }
}
