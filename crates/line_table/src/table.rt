//! The table of the lines that were begun.
ghost use Rattle.std.specs.Prelude.{◌≡◌, ◌≤◌, ◌<◌, IfOk, IsTrue, OnErr, OnOk, Some, filter, length, max, not, slice_index_or, slice_set, vec_capacity, vec_len};
ghost use Rattle.std.specs.List.{list_any};
ghost use Rattle.line_table.specs.Steps.{after_answer, after_begin, after_failed, after_took, is_open, last_moment, may_enter, no_line, no_lines, with_entry};

use crate::{Answers, EntryKind, Journal, JournalEntry};
use line_answers::Answer;
use lvm_script::Line;
use sector_base::Piece;
use std::alloc::{AllocError, Global};
use std::marker::Model;

/// The lines that were begun, the journal and the answers. Contracts see it as the record `Lines`.
#[derive(Drop)]
pub struct LineTable {
    begun: Vec<Line>,
    journal: Journal,
    answers: Answers,
    open: u64,
    spare_lines: u64,
    spare_entries: u64,
}

// So many lines can be begun in all.
const MOST_LINES: u64 = 1 << 32;

// The piece of an entry that has none.
const NO_PIECE: Piece = Piece {
    volume: 0,
    first: 0,
    count: 0,
    write: false,
};

impl Model for LineTable {
    ghost use Rattle.std.specs.Prelude.{◌≡◌, ◌≤◌, ◌+◌, ◌^◌, filter, length, vec_capacity, vec_len};
    ghost use Rattle.line_table.specs.Steps.{Lines, is_open};

    ghost Value = { Lines };

    ghost view = { λ t. record { begun = t.begun.items; journal = t.journal.items; answers = t.answers.items; spare_lines = t.spare_lines; spare_entries = t.spare_entries } };

    // A spare line has room among the lines and among the answers, and a number of 32 bits; the open ones are counted.
    ghost invariant = { λ t. (vec_len t.begun + t.spare_lines ≤ vec_capacity t.begun) × (vec_len t.begun + t.spare_lines ≤ vec_capacity t.answers)
        × (vec_len t.begun + t.spare_lines ≤ 2 ^ 32) × (vec_len t.journal + t.spare_entries ≤ vec_capacity t.journal)
        × (vec_len t.answers ≡ vec_len t.begun) × (t.open ≡ length (filter is_open t.answers.items)) };
}

// The line at this place has this answer.
fn put_answer(answers: &mut Answers, at: usize, answer: Answer)
    requires { at < vec_len answers.old }
    ensures items { answers.new.items ≡ slice_set answers.old.items at ((slice_index_or answers.old.items at no_line).0, Some answer) }
    ensures len { vec_len answers.new ≡ vec_len answers.old }
    ensures capacity { vec_capacity answers.new ≡ vec_capacity answers.old }
{
    answers[at].1 = Some(answer);
}

impl LineTable {
    /// A table of no lines. Only memory can be wanting.
    pub fn new(alloc: Global) -> Result<Self, AllocError>
        ensures { IfOk result (λ table. table ≡ no_lines) }
    {
        Ok(LineTable {
            begun: Vec::new(alloc),
            journal: Vec::new(alloc),
            answers: Vec::new(alloc),
            open: 0,
            spare_lines: 0,
            spare_entries: 0,
        })
    }

    /// Makes at least one line and so many entries spare. Only memory can be wanting, or 2^32 lines were begun.
    pub fn reserve(&mut self, entries: u64) -> Result<(), AllocError>
        ensures ok { OnOk result (self.new ≡ record self.old { spare_lines = max 1 self.old.spare_lines; spare_entries = max entries self.old.spare_entries }) }
        ensures err { OnErr result (self.new ≡ self.old) }
    {
        let lines = self.spare_lines.max(1);
        let entries = entries.max(self.spare_entries);
        if lines > MOST_LINES - self.begun.len() as u64 {
            return Err(AllocError);
        }
        self.begun.reserve(lines as usize)?;
        self.answers.reserve(lines as usize)?;
        self.journal.reserve(entries as usize)?;
        self.spare_lines = lines;
        self.spare_entries = entries;
        Ok(())
    }

    /// Begins the line, which names no volume, and answers its place among the lines that were begun.
    pub fn begin(&mut self, line: Line, moment: u64) -> u32
        requires line { 0 < self.old.spare_lines }
        requires entry { 0 < self.old.spare_entries }
        requires moment { last_moment self.old.journal ≤ moment }
        ensures place { result ≡ length self.old.begun }
        ensures after { self.new ≡ after_begin self.old line 0 moment }
    {
        self.begin_on(line, 0, moment)
    }

    /// Begins the line, which names the volume with this key, and answers its place among the lines that were begun.
    #[tactic(auto, using(crate::proofs::Counts::few_open))]
    pub fn begin_on(&mut self, line: Line, volume: u32, moment: u64) -> u32
        requires line { 0 < self.old.spare_lines }
        requires entry { 0 < self.old.spare_entries }
        requires moment { last_moment self.old.journal ≤ moment }
        ensures place { result ≡ length self.old.begun }
        ensures after { self.new ≡ after_begin self.old line volume moment }
    {
        let place = self.begun.len() as u32;
        let number = line.number;
        self.begun.push_reserved(line);
        self.answers.push_reserved((number, None));
        self.open += 1;
        self.spare_lines -= 1;
        self.enter(
            EntryKind::Begun,
            place,
            Piece { volume, ..NO_PIECE },
            moment,
        );
        place
    }

    /// A piece of the line takes place, or a command.
    pub fn took(&mut self, line: u32, piece: Piece, moment: u64)
        requires entry { 0 < self.old.spare_entries }
        requires line { IsTrue (may_enter self.old line) }
        requires moment { last_moment self.old.journal ≤ moment }
        ensures { self.new ≡ after_took self.old line piece moment }
    {
        self.enter(EntryKind::Took, line, piece, moment);
    }

    /// A piece of the line fails.
    pub fn failed(&mut self, line: u32, piece: Piece, moment: u64)
        requires entry { 0 < self.old.spare_entries }
        requires line { IsTrue (may_enter self.old line) }
        requires moment { last_moment self.old.journal ≤ moment }
        ensures { self.new ≡ after_failed self.old line piece moment }
    {
        self.enter(EntryKind::Failed, line, piece, moment);
    }

    /// Answers the line.
    #[tactic(auto, using(crate::proofs::Counts::one_open, crate::proofs::Counts::open_less))]
    pub fn answer(&mut self, line: u32, answer: Answer, moment: u64)
        requires entry { 0 < self.old.spare_entries }
        requires line { IsTrue (may_enter self.old line) }
        requires moment { last_moment self.old.journal ≤ moment }
        ensures { self.new ≡ after_answer self.old line answer moment }
    {
        put_answer(&mut self.answers, line as usize, answer);
        self.open -= 1;
        self.enter(EntryKind::Answered, line, NO_PIECE, moment);
    }

    /// Whether every line that was begun is answered.
    #[tactic(auto, using(crate::proofs::Counts::none_open))]
    pub fn is_done(&self) -> bool
        ensures { result ≡ not (list_any is_open self.now.answers) }
    {
        self.open == 0
    }

    /// How many of the lines that were begun aren't answered.
    pub fn open_count(&self) -> u64
        ensures { result ≡ length (filter is_open self.now.answers) }
    {
        self.open
    }

    /// The journal.
    pub fn journal(&self) -> &Journal
        ensures { result.now.items ≡ self.now.journal }
    {
        &self.journal
    }

    /// The answers.
    pub fn answers(&self) -> &Answers
        ensures { result.now.items ≡ self.now.answers }
    {
        &self.answers
    }

    /// The journal and the answers.
    pub fn into_parts(self) -> (Journal, Answers)
        ensures journal { result.0.items ≡ self.journal }
        ensures answers { result.1.items ≡ self.answers }
    {
        let LineTable {
            journal,
            answers,
            ..
        } = self;
        (journal, answers)
    }

    // Appends an entry.
    fn enter(&mut self, kind: EntryKind, line: u32, piece: Piece, moment: u64)
        requires { 0 < self.old.spare_entries }
        ensures { self.new ≡ with_entry self.old kind line piece moment }
    {
        self.journal.push_reserved(JournalEntry {
            kind,
            line,
            piece,
            moment,
        });
        self.spare_entries -= 1;
    }
}
