//! The journal and the answers of a run.
ghost use Rattle.std.specs.Prelude.{◌≡◌, ◌≢◌, [], ◌∷◌, false, IfOk, List, None, Some};
ghost use Rattle.std.specs.Option.{option_map_or};
ghost use Rattle.command_table.specs.Options.{Word};
ghost use Rattle.line_answers.specs.declared.answer.Answer.{Answer as AnswerRecord};
ghost use Rattle.line_history.specs.Histories.{journal_of_line};
ghost use Rattle.lvm_run.specs.History.{HasRoom, IsNothing, journal_by, said_of};
ghost use Rattle.lvm_run.specs.Outcomes.{IsOfLineOne, output_of, text_of};

use crate::outcome::Outcome;
use crate::output::Output;
use line_answers::Answer;
use line_table::{Answers, EntryKind, Journal, JournalEntry};
use sector_base::Piece;
use std::alloc::{AllocError, Global};

/// The journal and the answers of a run.
#[derive(Drop)]
pub struct Entered {
    pub journal: Journal,
    pub answers: Answers,
}

// The piece of an entry that has none.
const NO_PIECE: Piece = Piece {
    volume: 0,
    first: 0,
    count: 0,
    write: false,
};

// An entry of the line.
fn entry(kind: EntryKind, moment: u64) -> JournalEntry
    ensures { result ≡ record { kind = kind; line = 0; piece = record { volume = 0; first = 0; count = 0; write = false }; moment = moment } }
{
    JournalEntry {
        kind,
        line: 0,
        piece: NO_PIECE,
        moment,
    }
}

impl Entered {
    /// No entry, and no answer.
    pub fn none(alloc: Global) -> Self
        ensures { IsNothing result }
    {
        Entered {
            journal: Vec::new(alloc),
            answers: Vec::new(alloc),
        }
    }

    /// The same, with room for one line. Only memory can be wanting.
    pub fn spare(alloc: Global) -> Result<Self, AllocError>
        ensures { IfOk result (λ entered. IsNothing entered × HasRoom entered) }
    {
        let mut journal = Vec::new(alloc);
        journal.reserve(3)?;
        let mut answers = Vec::new(alloc);
        answers.reserve(1)?;
        Ok(Entered { journal, answers })
    }

    /// Enters line 1, which was begun after so many steps of the disks and took place after so many, or not at all, where the
    /// run came to this outcome after so many, and gives what is to be printed.
    pub fn enter(&mut self, begun: u64, took: Option<u64>, ended: u64, outcome: Outcome) -> Output
        requires nothing { IsNothing self.old }
        requires room { said_of outcome ≢ None → HasRoom self.old }
        requires first { IsOfLineOne outcome }
        ensures journal { self.new.journal.items ≡ journal_by begun took ended outcome }
        ensures answers { self.new.answers.items ≡ option_map_or (λ (said : AnswerRecord). (1, Some said) ∷ []) (said_of outcome) [] }
        ensures output { (names : List Word) → text_of names self.new.answers.items result ≡ output_of names outcome }
    {
        match outcome {
            Outcome::Ended(ending) => Output::Ending(ending),
            Outcome::Answered(line, Answer::NoMemory) => Output::NoMemory(line),
            Outcome::Answered(_, answer) => {
                self.enter_answered(begun, took, ended, answer);
                Output::Answers
            }
            Outcome::Reported { text, whole: _ } => {
                self.enter_answered(begun, took, ended, Answer::Fine);
                Output::Report(text)
            }
        }
    }

    // The same of a line that was answered.
    fn enter_answered(&mut self, begun: u64, took: Option<u64>, ended: u64, answer: Answer)
        requires nothing { IsNothing self.old }
        requires room { HasRoom self.old }
        ensures journal { self.new.journal.items ≡ journal_of_line begun took ended }
        ensures answers { self.new.answers.items ≡ (1, Some answer) ∷ [] }
    {
        self.journal.push_reserved(entry(EntryKind::Begun, begun));
        if let Some(took) = took {
            self.journal.push_reserved(entry(EntryKind::Took, took));
        }
        self.journal
            .push_reserved(entry(EntryKind::Answered, ended));
        self.answers.push_reserved((1, Some(answer)));
    }
}
