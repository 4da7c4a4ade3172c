//! Lines that were begun and aren't answered.
ghost use Rattle.std.specs.Prelude.{◌≡◌, ◌&&◌, None, Some, is_none};
ghost use Rattle.line_answers.specs.declared.answer.Answer.TheVariants.{Fine};
ghost use Rattle.world_acts.specs.OpenLines.{answer_of, is_whole};
ghost use Rattle.world_acts.specs.declared.open_line.Work.TheVariants.{Whole as WholeWork};

use line_answers::Answer;
use sector_base::Sectors;

/// What a line does.
#[derive(Debug, Drop)]
pub enum Work {
    /// It reads sectors from this one on, into the buffer.
    Read(u64, Sectors),
    /// It writes sectors.
    Write,
    /// It takes place at once, when nothing of it is left, and answers so: a line that flushes its volume, one that waits for all
    /// others, and a command.
    Whole(Answer),
}

/// A line under way: the key of its volume, what it does, how many of its pieces and of the flushes that it waits for have come to
/// no end, and what it will answer where one of them failed.
#[derive(Debug, Drop)]
pub struct OpenLine {
    pub key: u32,
    pub work: Work,
    pub left: u64,
    pub failure: Option<Answer>,
}

impl OpenLine {
    /// The line with this key that does this, and of which nothing is left so far.
    pub fn new(key: u32, work: Work) -> Self
        ensures { result ≡ record { key = key; work = work; left = 0; failure = None } }
    {
        OpenLine {
            key,
            work,
            left: 0,
            failure: None,
        }
    }

    /// The line with this key that is refused with this answer.
    pub fn refused(key: u32, answer: Answer) -> Self
        ensures { result ≡ record { key = key; work = WholeWork Fine; left = 0; failure = Some answer } }
    {
        OpenLine {
            key,
            work: Work::Whole(Answer::Fine),
            left: 0,
            failure: Some(answer),
        }
    }

    /// Whether it takes place as a whole, as long as nothing of it failed.
    pub fn takes_place(&self) -> bool
        ensures { result ≡ (is_whole self.now.work && is_none self.now.failure) }
    {
        matches!(self.work, Work::Whole(_)) && self.failure.is_none()
    }

    /// Its answer: the failure, if there was one, else what it read, or that it is done.
    pub fn into_answer(self) -> Answer
        ensures { result ≡ answer_of self }
    {
        let OpenLine { work, failure, .. } = self;
        match (failure, work) {
            (Some(answer), _) => answer,
            (None, Work::Read(_, sectors)) => Answer::Read(sectors),
            (None, Work::Write) => Answer::Fine,
            (None, Work::Whole(answer)) => answer,
        }
    }
}
