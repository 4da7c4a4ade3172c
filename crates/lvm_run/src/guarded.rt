//! A run that takes no disk which is in use, unless it is told to.
ghost use Rattle.std.specs.Prelude.{◌≡◌, ◌<◌, ◌^◌, true, false, length, IfErr, IfOk, IfSome, MatchOption, MatchResult};
ghost use Rattle.command_table.specs.Options.{words_of};
ghost use Rattle.disk_model.specs.State.{State};
ghost use Rattle.lvm_run.specs.declared.not_run.NotRun.TheVariants.{InUse as Used, Untold};
ghost use Rattle.lvm_run.specs.Disks.{HasDisks};
ghost use Rattle.lvm_run.specs.Guarded.{AreFree, IsWhyNotRun, LeavesUsed, LooksAtMost, NamesOne};
ghost use Rattle.lvm_run.specs.Sessions.{ProgramRuns, asks_session};
ghost use Rattle.lvm_run.specs.Sourced.{source};

use crate::not_run::NotRun;
use crate::run::{Ended, lvm_run};
use byte_streams::{Sink, Source};
use disk_model::Shelf;
use disk_use::{InUse, UseRefusal, find_use};
use lvm_id::Words64;
use lvm_words::{WordsRefusal, read_command_line};
use std::alloc::Global;
use std::sync::Wait;
use std::thread::Threads;
use table_lock::Gate;

/// Runs the program's words as `lvm_run` does. Before anything else, unless it is forced, the disks that a command would take
/// are looked at; where one of them is in use, or that can't be told, nothing runs. Those of a session are looked at once its
/// script is read.
pub fn guarded_run<
    T: Threads + Wait + Sync,
    S: Shelf + Send,
    R: Source,
    W: Sink,
    N: Words64,
    G: Gate + Sync,
>(
    rt: &T,
    alloc: Global,
    forced: bool,
    words: &Vec<String>,
    script: &mut R,
    out: &mut W,
    shelf: S,
    ids: &mut N,
    now: u64,
    gate: &G,
) -> Result<Ended<S>, (NotRun, S)>
    requires disks { HasDisks (words_of words.now.items) (S.state shelf) }
    requires time { now < 2 ^ 48 }

    // What was run was run on the disks as they were handed in, which were looked at at most.
    ensures run { MatchResult result
        (λ ended. (start : State) × LooksAtMost (S.state shelf) start
        × ProgramRuns forced (words_of words.now.items) now S.state
        (source (R.left script.old) (R.fault_count script.old)) (source (R.left script.new) (R.fault_count script.new))
        (N.upcoming ids.old) (N.upcoming ids.new) start
        ended.status (W.written out.old) (W.fault_count out.old) (W.written out.new) (W.fault_count out.new)
        ended.entered.journal.items ended.entered.answers.items ended.shelf)
        (λ refused. LooksAtMost (S.state shelf) (S.state refused.1) × (forced ≡ false)
        × IsWhyNotRun (words_of words.now.items) (S.state shelf) refused.0 (S.state refused.1)) }

    // Unless it is forced no disk is written that the command or session would take and that is in use.
    ensures kept { forced ≡ false → MatchResult result
        (λ ended. LeavesUsed (words_of words.now.items) (S.state shelf) (S.state ended.shelf))
        (λ refused. LeavesUsed (words_of words.now.items) (S.state shelf) (S.state refused.1)) }
    ensures named { IfErr result (λ refused. NamesOne (length (S.state shelf).sizes) refused.0) }
{
    let mut shelf = shelf;
    match find_unless(forced, alloc, words, &mut shelf) {
        Ok(None) => Ok(lvm_run(rt, alloc, forced, words, script, out, shelf, ids, now, gate)),
        Ok(Some(used)) => Err((NotRun::InUse(used), shelf)),
        Err(refusal) => Err((NotRun::Untold(refusal), shelf)),
    }
}

// The first disk that these words would take and that is in use. Nothing is looked at where the run is forced.
fn find_unless<S: Shelf>(
    forced: bool,
    alloc: Global,
    words: &[String],
    shelf: &mut S,
) -> Result<Option<InUse>, UseRefusal>
    requires disks { HasDisks (words_of words.now) (S.state shelf.old) }
    ensures looks { LooksAtMost (S.state shelf.old) (S.state shelf.new) }
    // Nothing is looked at for a session.
    ensures session { asks_session (words_of words.now) ≡ true → S.state shelf.new ≡ S.state shelf.old }
    ensures cause { MatchResult result
        (λ found. MatchOption found (forced ≡ false → AreFree (words_of words.now) (S.state shelf.old))
        (λ used. (forced ≡ false) × IsWhyNotRun (words_of words.now) (S.state shelf.old) (Used used) (S.state shelf.new)))
        (λ refusal. (forced ≡ false) × IsWhyNotRun (words_of words.now) (S.state shelf.old) (Untold refusal) (S.state shelf.new)) }
    ensures named { IfOk result (λ found. IfSome found (λ used. used.pv < length (S.state shelf.old).sizes)) }
{
    if forced {
        return Ok(None);
    }
    find_asked(alloc, words, shelf)
}

// The first disk that these words would take and that is in use.
fn find_asked<S: Shelf>(
    alloc: Global,
    words: &[String],
    shelf: &mut S,
) -> Result<Option<InUse>, UseRefusal>
    requires disks { HasDisks (words_of words.now) (S.state shelf.old) }
    ensures looks { LooksAtMost (S.state shelf.old) (S.state shelf.new) }
    ensures session { asks_session (words_of words.now) ≡ true → S.state shelf.new ≡ S.state shelf.old }
    ensures cause { MatchResult result
        (λ found. MatchOption found (AreFree (words_of words.now) (S.state shelf.old))
        (λ used. IsWhyNotRun (words_of words.now) (S.state shelf.old) (Used used) (S.state shelf.new)))
        (λ refusal. IsWhyNotRun (words_of words.now) (S.state shelf.old) (Untold refusal) (S.state shelf.new)) }
    ensures named { IfOk result (λ found. IfSome found (λ used. used.pv < length (S.state shelf.old).sizes)) }
{
    match read_command_line(alloc, words) {
        Ok(line) => find_use(alloc, shelf, &line.names, &line.request),
        Err(WordsRefusal::NoMeaning) => Ok(None),
        Err(WordsRefusal::NoMemory) => Err(UseRefusal::NoMemory),
    }
}
