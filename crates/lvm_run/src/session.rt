//! A session: the lines of a script, run on the volumes of what the disks hold.
ghost use Rattle.std.specs.Prelude.{◌≡◌, ◌≤◌, ◌++◌, [], All, false, length, is_ok, IfErr, IfOk, IfSome, MatchOption, MatchResult, Ok, Err};
ghost use Rattle.disk_model.specs.Idle.{IsIdleAgain};
ghost use Rattle.change_batches.specs.Sound.{sizes_of};
ghost use Rattle.vg_found.specs.Shape.{HasShape};
ghost use Rattle.vg_found.specs.Whole.{IsWhole};
ghost use Rattle.volume_rules.specs.Rules.{IsAccepted};
ghost use Rattle.disk_use.specs.Unlisted.{AreListed, IsUnlisted};
ghost use Rattle.vg_repair.specs.declared.fault.RepairFault.{RepairFault as FaultRecord};
ghost use Rattle.io_core.specs.Rest.{LiesOn};
ghost use Rattle.session_run.specs.SessionScript.{AreOfSession};
ghost use Rattle.session_run.specs.Status.{status_of_lines};
ghost use Rattle.lvm_run.specs.Changing.{ending_of};
ghost use Rattle.lvm_run.specs.Disks.{AreDisks};
ghost use Rattle.lvm_run.specs.History.{IsNothing};
ghost use Rattle.lvm_run.specs.InUse.{AreAllFree, LeavesInUse};
ghost use Rattle.lvm_run.specs.Sessions.{EndedBefore, IsUnready, OpensAndRepairs, Ran, ReadsLines, ReadsNoLines, RepairsFound, RunsSession, SessionEnds};
ghost use Rattle.lvm_run.specs.Sessions.{first_status, script_ending, source_ending, status_if};
ghost use Rattle.lvm_run.specs.Sourced.{source};

use crate::built::is_built_session;
use crate::changing::ending_of;
use crate::ending::Ending;
use crate::entered::Entered;
use crate::opening::open_disks;
use crate::output::Output;
use crate::run::Ended;
use byte_streams::{Failed, ReadFault, Sink, Source, read_all};
use command_table::Session;
use disk_model::Shelf;
use disk_use::first_unlisted;
use io_core::DataLine;
use line_answers::DiskNames;
use line_table::Answers;
use lvm_id::Words64;
use lvm_script::ScriptRefusal;
use repair_scans::repair_scans;
use session_run::{RanLines, run_lines, session_script, status_of_lines, write_lines};
use std::alloc::Global;
use std::collections::VecDeque;
use table_lock::Gate;
use vg_check::Checked;
use vg_found::Whole;
use vg_repair::repair;
use volume_history::parts_make_consistent;

/// Runs the session on these disks: reads the source to its end and the script in it, flushes and scans the disks, repairs what is
/// stale, old or a stray, runs the lines on what is found then, and writes what they answer. Unless it is forced none is in use. All
/// memory for a repair, and then for each line, is taken before anything of it is written.
pub fn run_session<S: Shelf, R: Source, W: Sink, N: Words64, G: Gate>(
    alloc: Global,
    script: &mut R,
    out: &mut W,
    shelf: S,
    ids: &mut N,
    names: &DiskNames,
    session: &Session,
    forced: bool,
    gate: &G,
) -> Ended<S>
    requires disks { AreDisks (length names.now) (S.state shelf) }
    requires some { 1 ≤ length names.now }
    requires few { length names.now ≤ 64 }
    ensures runs { RunsSession forced session.now names.now S.state (source (R.left script.old) (R.fault_count script.old)) (source (R.left script.new) (R.fault_count script.new))
        (N.upcoming ids.old) (N.upcoming ids.new) (S.state shelf) result.status (W.written out.old) (W.fault_count out.old) (W.written out.new) (W.fault_count out.new)
        result.entered.journal.items result.entered.answers.items result.shelf }
    ensures kept { forced ≡ false → LeavesInUse (S.state shelf) (S.state result.shelf) }
{
    // (what is proved of such runs)
    repair_scans();
    parts_make_consistent();
    if !is_built_session(session) {
        return end_before(alloc, out, names, shelf, Ending::WordsRefused);
    }
    let lines = match read_lines(alloc, script, ids) {
        Ok(lines) => lines,
        Err(ending) => return end_before(alloc, out, names, shelf, ending),
    };
    let mut shelf = shelf;
    let whole = match open_whole(alloc, &mut shelf, forced) {
        Ok(whole) => whole,
        Err(ending) => return end_before(alloc, out, names, shelf, ending),
    };
    match run_lines(alloc, whole, shelf, lines, gate) {
        Ok(ran) => end_lines(alloc, out, names, ran),
        Err(back) => end_before(alloc, out, names, back, Ending::NoMemory),
    }
}

// ---- what comes before the lines

// The lines of the script that the source gives.
fn read_lines<R: Source, N: Words64>(
    alloc: Global,
    script: &mut R,
    ids: &mut N,
) -> Result<VecDeque<DataLine>, Ending>
    ensures read { MatchResult result
        (λ lines. ReadsLines (source (R.left script.old) (R.fault_count script.old)) (source (R.left script.new) (R.fault_count script.new)) (N.upcoming ids.old) lines.items (N.upcoming ids.new))
        (λ ending. ReadsNoLines (source (R.left script.old) (R.fault_count script.old)) (source (R.left script.new) (R.fault_count script.new)) (N.upcoming ids.old) ending (N.upcoming ids.new)) }
    ensures session { IfOk result (λ lines. AreOfSession lines.items) }
{
    let text = match read_all(alloc, script) {
        Ok(text) => text,
        Err(fault) => return Err(source_ending(fault)),
    };
    match session_script(alloc, &text, ids) {
        Ok(lines) => Ok(lines),
        Err(refusal) => Err(script_ending(refusal)),
    }
}

// How a session ends whose source gives no text.
fn source_ending(fault: ReadFault) -> Ending
    ensures { result ≡ source_ending fault }
{
    match fault {
        ReadFault::NoMemory => Ending::NoMemory,
        ReadFault::Failed => Ending::SourceFailed,
        ReadFault::ScriptTooLong => Ending::ScriptTooLong,
    }
}

// How it ends where its script is refused.
fn script_ending(refusal: ScriptRefusal) -> Ending
    ensures { result ≡ script_ending refusal }
{
    match refusal {
        ScriptRefusal::NoMemory => Ending::NoMemory,
        ScriptRefusal::LineRefused {
            number,
            fault,
            place,
        } => Ending::ScriptRefused {
            line: number,
            fault,
            place,
        },
    }
}

// Flushes and scans the disks, repairs what is found, and gives what is found then. Unless it is forced none of the disks is in use.
fn open_whole<S: Shelf>(alloc: Global, shelf: &mut S, forced: bool) -> Result<Whole, Ending>
    requires disks { AreDisks (length (S.state shelf.old).sizes) (S.state shelf.old) }
    requires some { 1 ≤ length (S.state shelf.old).sizes }
    requires few { length (S.state shelf.old).sizes ≤ 64 }
    ensures again { IsIdleAgain (S.state shelf.old) (S.state shelf.new) }
    ensures ready { MatchResult result
        (λ whole. OpensAndRepairs (S.state shelf.old) (Ok whole) (S.state shelf.new))
        (λ ending. IsUnready forced (S.state shelf.old) ending (S.state shelf.new)) }
    ensures free { IfOk result (λ _. forced ≡ false → AreAllFree (S.state shelf.old)) }
    ensures kept { IfErr result (λ _. forced ≡ false → LeavesInUse (S.state shelf.old) (S.state shelf.new)) }
    ensures lies { IfOk result (LiesOn (S.state shelf.new).sizes) }
    ensures shape { IfOk result HasShape }
    ensures whole { IfOk result IsWhole }
{
    let whole = match open_disks(alloc, shelf) {
        Ok(whole) => whole,
        Err(ending) => return Err(ending),
    };
    if let Some(pv) = first_in_use(&whole, forced) {
        return Err(Ending::DiskInUse(pv));
    }
    repair_whole(alloc, whole, shelf)
}

// The first disk that a group uses which wasn't found, unless that is all the same.
fn first_in_use(whole: &Whole, forced: bool) -> Option<u32>
    ensures { MatchOption result (forced ≡ false → AreListed whole.now) (λ pv. (forced ≡ false) × IsUnlisted whole.now pv) }
{
    if forced {
        return None;
    }
    first_unlisted(whole.found())
}

// Repairs what was found on the disks, and gives what is found then.
fn repair_whole<S: Shelf>(alloc: Global, whole: Whole, shelf: &mut S) -> Result<Whole, Ending>
    requires idle { (S.state shelf.old).in_flight ≡ [] }
    requires sizes { (S.state shelf.old).sizes ≡ sizes_of whole.disks }
    ensures again { IsIdleAgain (S.state shelf.old) (S.state shelf.new) }
    ensures repairs { MatchResult result
        (λ repaired. RepairsFound (S.state shelf.old) whole (Ok repaired) (S.state shelf.new))
        (λ ending. (fault : FaultRecord) × (ending ≡ ending_of fault) × RepairsFound (S.state shelf.old) whole (Err fault) (S.state shelf.new)) }
    ensures lies { IfOk result (LiesOn (S.state shelf.new).sizes) }
    ensures shape { IfOk result HasShape }
    ensures whole { IfOk result IsWhole }
{
    match repair(alloc, whole, shelf) {
        Ok(repaired) => {
            let found = repaired.found();
            see_accepted(&found.group);
            Ok(repaired)
        }
        Err(fault) => Err(ending_of(fault)),
    }
}

// What a group's type keeps.
fn see_accepted(group: &Option<Checked>)
    ensures { IfSome group.now IsAccepted }
{
    if let Some(checked) = group {
        checked.group();
    }
}

// ---- how it ends

// Prints what ended a session before its lines.
fn end_before<S: Shelf, W: Sink>(
    alloc: Global,
    out: &mut W,
    names: &DiskNames,
    shelf: S,
    ending: Ending,
) -> Ended<S>
    ensures ends { SessionEnds names.now (EndedBefore ending) result.status (W.written out.old) (W.fault_count out.old) (W.written out.new) (W.fault_count out.new) }
    ensures shelf { result.shelf ≡ shelf }
    ensures nothing { IsNothing result.entered }
{
    let entered = Entered::none(alloc);
    let status = ending.status();
    let printed = Output::Ending(ending).print(alloc, out, &entered.answers, names);
    Ended {
        status: status_if(printed, status),
        shelf,
        entered,
    }
}

// Prints what the lines of a session answered.
fn end_lines<S: Shelf, W: Sink>(
    alloc: Global,
    out: &mut W,
    names: &DiskNames,
    ran: RanLines<S>,
) -> Ended<S>
    ensures ends { SessionEnds names.now (Ran ran.answers.items ran.unbegun.items) result.status (W.written out.old) (W.fault_count out.old) (W.written out.new) (W.fault_count out.new) }
    ensures shelf { result.shelf ≡ ran.shelf }
    ensures journal { result.entered.journal.items ≡ ran.journal.items }
    ensures answers { result.entered.answers.items ≡ ran.answers.items }
{
    let RanLines {
        shelf,
        journal,
        answers,
        unbegun,
    } = ran;
    let status = status_of_both(&answers, &unbegun);
    let printed = write_lines(alloc, out, &answers, &unbegun, names);
    Ended {
        status: status_if(printed, status),
        shelf,
        entered: Entered { journal, answers },
    }
}

// The exit status of lines with these answers, and then others with those.
fn status_of_both(answers: &Answers, more: &Answers) -> u8
    ensures { result ≡ status_of_lines (answers.now.items ++ more.now.items) }
{
    first_status(status_of_lines(answers), status_of_lines(more))
}

// The first of two exit statuses: 2 comes first, then 6, then 5.
fn first_status(one: u8, other: u8) -> u8
    ensures { result ≡ first_status one other }
{
    if one == 2 || other == 2 {
        2
    } else if one == 6 || other == 6 {
        6
    } else if one == 5 || other == 5 {
        5
    } else {
        0
    }
}

// The exit status, by whether the output was printed.
fn status_if(printed: Result<(), Failed>, status: u8) -> u8
    ensures { result ≡ status_if (is_ok printed) status }
{
    match printed {
        Ok(()) => status,
        Err(Failed) => if 2 <= status && status <= 4 {
            status
        } else {
            7
        },
    }
}
