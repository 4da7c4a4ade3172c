//! All that the program does, over any row of disks, streams and sources of ids.
ghost use Rattle.std.specs.Prelude.{◌≡◌, ◌≢◌, ◌≤◌, ◌<◌, ◌^◌, ℕ, Bool, true, false, List, [], ◌∷◌, length, None, Option, Some};
ghost use Rattle.std.specs.Option.{option_map_or};
ghost use Rattle.command_table.specs.Commands.{changes};
ghost use Rattle.command_table.specs.Options.{Word, words_of};
ghost use Rattle.line_answers.specs.declared.answer.Answer.{Answer as AnswerRecord};
ghost use Rattle.lvm_script.specs.Lines.{with_text};
ghost use Rattle.lvm_run.specs.Commands.{is_built, spec_of};
ghost use Rattle.lvm_run.specs.Disks.{AreDisks, HasDisks};
ghost use Rattle.lvm_run.specs.History.{HasRoom, IsNothing, IsEntered, journal_by, lines_by, lines_of_task, lines_of_words, said_of};
ghost use Rattle.lvm_run.specs.InUse.{LeavesInUse};
ghost use Rattle.lvm_run.specs.Meets.{Meets};
ghost use Rattle.lvm_run.specs.Outcomes.{Ends, IsOfLineOne, output_of};
ghost use Rattle.lvm_run.specs.Runs.{AreNamed, CanPlan, CanPlanTask, RunsLine, RunsTask, RunsWords, context_with, names_of};
ghost use Rattle.lvm_run.specs.Sessions.{ProgramRuns, SingleRuns, asks_session};
ghost use Rattle.lvm_run.specs.Sourced.{SourceState, source};

use crate::built::is_built;
use crate::changing::run_change;
use crate::commands::pvck::run_pvck;
use crate::commands::scan_report::{ScanReport, reports_scan, run_scan_report};
use crate::commands::vgcfgbackup::run_vgcfgbackup;
use crate::ending::Ending;
use crate::entered::Entered;
use crate::outcome::Outcome;
use crate::session::run_session;
use crate::session_words::{AskedSession, asked_session};
use crate::sourced::with_source;
use crate::timed_outcome::TimedOutcome;
use byte_streams::{Failed, Sink, Source};
use command_table::Command;
use disk_model::Shelf;
use line_answers::DiskNames;
use line_table::{Answers, Journal};
use lvm_id::Words64;
use lvm_script::Line;
use lvm_words::{Asked, Task, WordsRefusal, read_words};
use std::alloc::{AllocError, Global};
use std::sync::Wait;
use std::thread::Threads;
use table_lock::Gate;

/// How a run ended: its exit status, the disks, and what it has entered.
#[derive(Drop)]
pub struct Ended<S> {
    pub status: u8,
    pub shelf: S,
    pub(crate) entered: Entered,
}

impl<S> Ended<S> {
    /// The journal: what was done of the lines, with the moment of each entry, which counts the steps of the disks. It is
    /// empty where no line was begun.
    pub fn journal(&self) -> &Journal
        ensures { result.now.items ≡ self.now.entered.journal.items }
    {
        &self.entered.journal
    }

    /// Of each line that was begun its number and its answer.
    pub fn answers(&self) -> &Answers
        ensures { result.now.items ≡ self.now.entered.answers.items }
    {
        &self.entered.answers
    }
}

/// Runs the program's words. Where they name disks, `shelf` has these in that order, each of 8 to 2^40 sectors, with nothing
/// in flight. The output goes to `out`, the ids of what is created are drawn from `ids`, and `now` is the time in seconds.
/// A session and vgcfgrestore read `script`, to its end, and no other command that is built does. None starts a thread. `forced` says
/// that a session takes disks that are in use.
pub fn lvm_run<
    T: Threads + Wait + Sync,
    S: Shelf + Send,
    R: Source,
    W: Sink,
    N: Words64,
    G: Gate + Sync,
>(
    _rt: &T,
    alloc: Global,
    forced: bool,
    words: &Vec<String>,
    script: &mut R,
    out: &mut W,
    shelf: S,
    ids: &mut N,
    now: u64,
    gate: &G,
) -> Ended<S>
    requires disks { HasDisks (words_of words.now.items) (S.state shelf) }
    requires time { now < 2 ^ 48 }

    // A session does what is said of sessions, and other words what is said of them.
    ensures run { ProgramRuns forced (words_of words.now.items) now S.state
        (source (R.left script.old) (R.fault_count script.old)) (source (R.left script.new) (R.fault_count script.new))
        (N.upcoming ids.old) (N.upcoming ids.new) (S.state shelf)
        result.status (W.written out.old) (W.fault_count out.old) (W.written out.new) (W.fault_count out.new)
        result.entered.journal.items result.entered.answers.items result.shelf }

    // Unless it is forced a session writes no disk that is in use.
    ensures kept { forced ≡ false → asks_session (words_of words.now.items) ≡ true → LeavesInUse (S.state shelf) (S.state result.shelf) }
{
    match asked_session(alloc, words) {
        Ok(Some(AskedSession { names, session })) => {
            run_session(
                alloc, script, out, shelf, ids, &names, &session, forced, gate,
            )
        }
        Ok(None) => run_single(alloc, words, script, out, shelf, ids, now),
        Err(AllocError) => end_unread(alloc, shelf),
    }
}

// Ends a run for whose words memory was wanting: nothing is read, done or printed.
fn end_unread<S: Shelf>(alloc: Global, shelf: S) -> Ended<S>
    ensures same { result.shelf ≡ shelf }
    ensures unread { (forced : Bool) (words : List Word) (now : ℕ) (from : SourceState) (ids : ℕ → List ℕ) (written : Option (List ℕ)) (faults : ℕ) → HasDisks words (S.state shelf)
        → ProgramRuns forced words now S.state from from ids ids (S.state shelf) result.status written faults written faults
        result.entered.journal.items result.entered.answers.items result.shelf }
{
    Ended {
        status: 2,
        shelf,
        entered: Entered::none(alloc),
    }
}

// Runs words that ask for one command, or for nothing that runs.
fn run_single<S: Shelf, R: Source, W: Sink, N: Words64>(
    alloc: Global,
    words: &Vec<String>,
    script: &mut R,
    out: &mut W,
    shelf: S,
    ids: &mut N,
    now: u64,
) -> Ended<S>
    requires disks { HasDisks (words_of words.now.items) (S.state shelf) }
    requires time { now < 2 ^ 48 }
    ensures run { SingleRuns (words_of words.now.items) now
        (source (R.left script.old) (R.fault_count script.old)) (source (R.left script.new) (R.fault_count script.new))
        (N.upcoming ids.old) (N.upcoming ids.new) (S.state shelf)
        result.status (W.written out.old) (W.fault_count out.old) (W.written out.new) (W.fault_count out.new)
        result.entered.journal.items result.entered.answers.items (S.state result.shelf) }
{
    let mut shelf = shelf;
    let (ran, names, mut entered) = run_words(alloc, words, script, &mut shelf, ids, now);
    let status = finish(alloc, out, &names, &mut entered, ran, shelf.steps());
    Ended {
        status,
        shelf,
        entered,
    }
}

// Enters what the run came to after so many steps of the disks, which have these names, prints it, and gives the exit status.
fn finish<W: Sink>(
    alloc: Global,
    out: &mut W,
    names: &DiskNames,
    entered: &mut Entered,
    ran: TimedOutcome,
    steps: u64,
) -> u8
    requires nothing { IsNothing entered.old }
    requires room { said_of ran.outcome ≢ None → HasRoom entered.old }
    requires first { IsOfLineOne ran.outcome }
    ensures journal { entered.new.journal.items ≡ journal_by ran.begun ran.took steps ran.outcome }
    ensures answers { entered.new.answers.items ≡ option_map_or (λ (said : AnswerRecord). (1, Some said) ∷ []) (said_of ran.outcome) [] }
    ensures ends { Ends names.now ran.outcome result (W.written out.old) (W.fault_count out.old) (W.written out.new) (W.fault_count out.new) }
{
    let TimedOutcome {
        outcome,
        begun,
        took,
    } = ran;
    let whole = outcome.status();
    let unprinted = outcome.status_unprinted();
    let output = entered.enter(begun, took, steps, outcome);
    match output.print(alloc, out, &entered.answers, names) {
        Ok(()) => whole,
        Err(Failed) => unprinted,
    }
}

// Runs the words at this time, and gives the names of the disks as far as the outcome prints them, and room for what is to be
// entered of it. That is taken before anything is done.
fn run_words<R: Source, S: Shelf, N: Words64>(
    alloc: Global,
    words: &[String],
    script: &mut R,
    shelf: &mut S,
    ids: &mut N,
    now: u64,
) -> (TimedOutcome, DiskNames, Entered)
    requires disks { HasDisks (words_of words.now) (S.state shelf.old) }
    requires time { now < 2 ^ 48 }
    ensures run { (text : List ℕ)
        × RunsWords (words_of words.now) now text (source (R.left script.old) (R.fault_count script.old)) (source (R.left script.new) (R.fault_count script.new))
        (N.upcoming ids.old) (S.state shelf.old) result.0.outcome (N.upcoming ids.new) (S.state shelf.new)
        × IsEntered (names_of (words_of words.now)) now (S.state shelf.old) (journal_by result.0.begun result.0.took (S.state shelf.new).steps result.0.outcome)
        (lines_of_words (words_of words.now) text (N.upcoming ids.old) result.0.outcome) (S.state shelf.new) }
    ensures output { output_of result.1 result.0.outcome ≡ output_of (names_of (words_of words.now)) result.0.outcome }
    ensures room { said_of result.0.outcome ≢ None → HasRoom result.2 }
    ensures none { IsNothing result.2 }
{
    match Entered::spare(alloc) {
        Ok(entered) => {
            let (ran, names) = run_asked(alloc, words, script, shelf, ids, now);
            (ran, names, entered)
        }
        Err(AllocError) => (
            TimedOutcome::ended(Ending::NoMemory),
            no_names(alloc),
            Entered::none(alloc),
        ),
    }
}

// Reads the words, and does what they ask for.
fn run_asked<R: Source, S: Shelf, N: Words64>(
    alloc: Global,
    words: &[String],
    script: &mut R,
    shelf: &mut S,
    ids: &mut N,
    now: u64,
) -> (TimedOutcome, DiskNames)
    requires disks { HasDisks (words_of words.now) (S.state shelf.old) }
    requires time { now < 2 ^ 48 }
    ensures run { (text : List ℕ)
        × RunsWords (words_of words.now) now text (source (R.left script.old) (R.fault_count script.old)) (source (R.left script.new) (R.fault_count script.new))
        (N.upcoming ids.old) (S.state shelf.old) result.0.outcome (N.upcoming ids.new) (S.state shelf.new)
        × IsEntered (names_of (words_of words.now)) now (S.state shelf.old) (journal_by result.0.begun result.0.took (S.state shelf.new).steps result.0.outcome)
        (lines_of_words (words_of words.now) text (N.upcoming ids.old) result.0.outcome) (S.state shelf.new) }
    ensures output { output_of result.1 result.0.outcome ≡ output_of (names_of (words_of words.now)) result.0.outcome }
{
    match read_words(alloc, words, ids) {
        Ok(Asked { names, task }) => (run_task(alloc, script, shelf, &names, task, now), names),
        Err(WordsRefusal::NoMeaning) => (
            TimedOutcome::ended(Ending::WordsRefused),
            no_names(alloc),
        ),
        Err(WordsRefusal::NoMemory) => (TimedOutcome::ended(Ending::NoMemory), no_names(alloc)),
    }
}

fn no_names(alloc: Global) -> DiskNames
    ensures { result ≡ [] }
{
    DiskNames::from_vec(Vec::new(alloc))
}

// Does what is asked for, at this time, where it is built.
fn run_task<R: Source, S: Shelf>(
    alloc: Global,
    script: &mut R,
    shelf: &mut S,
    names: &DiskNames,
    task: Task,
    now: u64,
) -> TimedOutcome
    requires disks { AreDisks (length names.now) (S.state shelf.old) }
    requires named { AreNamed names.now }
    requires planned { CanPlanTask task }
    requires time { now < 2 ^ 48 }
    ensures { (text : List ℕ)
        × RunsTask names.now task now text (source (R.left script.old) (R.fault_count script.old)) (source (R.left script.new) (R.fault_count script.new))
        (S.state shelf.old) result.outcome (S.state shelf.new)
        × IsEntered names.now now (S.state shelf.old) (journal_by result.begun result.took (S.state shelf.new).steps result.outcome) (lines_of_task task text result.outcome) (S.state shelf.new) }
{
    match task {
        Task::One(line) => run_line(alloc, script, shelf, names, line, now),
        Task::Session(_) => TimedOutcome::ended(Ending::WordsRefused),
        Task::Demo { .. } => TimedOutcome::ended(Ending::WordsRefused),
    }
}

// Does what the line asks for, where its command is built, with the text of the source, where it restores a group from that.
fn run_line<R: Source, S: Shelf>(
    alloc: Global,
    script: &mut R,
    shelf: &mut S,
    names: &DiskNames,
    line: Line,
    now: u64,
) -> TimedOutcome
    requires disks { AreDisks (length names.now) (S.state shelf.old) }
    requires named { AreNamed names.now }
    requires planned { CanPlan line }
    requires time { now < 2 ^ 48 }
    ensures { (text : List ℕ)
        × RunsLine names.now line now text (source (R.left script.old) (R.fault_count script.old)) (source (R.left script.new) (R.fault_count script.new))
        (S.state shelf.old) result.outcome (S.state shelf.new)
        × IsEntered names.now now (S.state shelf.old) (journal_by result.begun result.took (S.state shelf.new).steps result.outcome) (lines_by (with_text text line) result.outcome) (S.state shelf.new) }
{
    if !is_built(&line.command) {
        return TimedOutcome::ended(Ending::WordsRefused);
    }
    match with_source(alloc, script, line) {
        Ok(line) => run_built(alloc, shelf, names, line, now),
        Err(ending) => TimedOutcome::ended(ending),
    }
}

// Does what the line asks for on these disks, at this time.
fn run_built<S: Shelf>(
    alloc: Global,
    shelf: &mut S,
    names: &DiskNames,
    line: Line,
    now: u64,
) -> TimedOutcome
    requires disks { AreDisks (length names.now) (S.state shelf.old) }
    requires named { AreNamed names.now }
    requires built { is_built line.command ≡ true }
    requires planned { CanPlan line }
    requires time { now < 2 ^ 48 }
    ensures meets { Meets (spec_of line.command) (context_with names.now line.id now (S.state shelf.old)) (S.state shelf.old) result.outcome (S.state shelf.new) }
    ensures entered { IsEntered names.now now (S.state shelf.old) (journal_by result.begun result.took (S.state shelf.new).steps result.outcome) (lines_by line result.outcome) (S.state shelf.new) }
{
    if line.command.changes() {
        return run_change(alloc, shelf, names, &line, now);
    }
    let behind = reports_scan(&line.command);
    let before = shelf.steps();
    let outcome = run_reading(alloc, shelf, names, line, now);
    let ended = shelf.steps();
    let begun = if behind { ended } else { before };
    let took = if outcome.is_report() {
        Some(ended)
    } else {
        None
    };
    TimedOutcome {
        outcome,
        begun,
        took,
    }
}

// The same of a command that changes nothing.
fn run_reading<S: Shelf>(
    alloc: Global,
    shelf: &mut S,
    names: &DiskNames,
    line: Line,
    now: u64,
) -> Outcome
    requires disks { AreDisks (length names.now) (S.state shelf.old) }
    requires some { 1 ≤ length names.now }
    requires few { length names.now ≤ 64 }
    requires built { is_built line.command ≡ true }
    requires reads { changes line.command ≡ false }
    ensures { Meets (spec_of line.command) (context_with names.now line.id now (S.state shelf.old)) (S.state shelf.old) result (S.state shelf.new) }
{
    let Line {
        number: _,
        id: _,
        command,
    } = line;
    match command {
        Command::Pvck { pv } => run_pvck(alloc, shelf, names, pv),
        Command::Vgcfgbackup { vg } => run_vgcfgbackup(alloc, shelf, names, vg, now),
        Command::Pvs => run_scan_report(alloc, shelf, names, ScanReport::Pvs),
        Command::Vgs => run_scan_report(alloc, shelf, names, ScanReport::Vgs),
        Command::Lvs => run_scan_report(alloc, shelf, names, ScanReport::Lvs),
        Command::Vgck => run_scan_report(alloc, shelf, names, ScanReport::Vgck),
        _ => unreachable!(),
    }
}
