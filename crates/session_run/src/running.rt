//! The lines of a session run.
ghost use Rattle.std.specs.Prelude.{◌≡◌, ◌≤◌, ◌+◌, ◌++◌, All, MatchResult, [], length, map, vec_capacity, vec_len};
ghost use Rattle.io_core.specs.Rest.{LiesOn};
ghost use Rattle.session_run.specs.Running.{RunsLines, refused_answers, unanswered, unbegun_answers};
ghost use Rattle.session_run.specs.SessionScript.{AreOfSession};

use disk_model::Shelf;
use io_core::{DataLine, Finished, World};
use io_session::{Run, run_alone};
use line_answers::Answer;
use line_table::{Answers, Journal};
use piece_split::pieces_cover_requests;
use std::alloc::Global;
use std::collections::VecDeque;
use table_lock::Gate;
use vg_found::Whole;
use world_tracks::runs_keep_histories;

/// What the lines of a session came to: the disks, what was done, the answers of the lines that were begun, and the others, the first
/// with want of memory, where it was wanted for that line, and the rest without an answer.
#[derive(Drop)]
pub struct RanLines<S> {
    pub shelf: S,
    pub journal: Journal,
    pub answers: Answers,
    pub unbegun: Answers,
}

/// Runs the lines on what a scan found on these disks, one event after another, and returns. All memory but that of the lines is taken
/// before.
///
/// # Errors
///
/// Where memory is wanting before the first line. Then nothing is done, and the disks come back.
pub fn run_lines<S: Shelf, G: Gate>(
    alloc: Global,
    whole: Whole,
    shelf: S,
    lines: VecDeque<DataLine>,
    gate: &G,
) -> Result<RanLines<S>, S>
    requires idle { (S.state shelf).in_flight ≡ [] }
    requires few { length (S.state shelf).sizes ≤ 64 }
    requires lies { LiesOn (S.state shelf).sizes whole }
    requires session { AreOfSession lines.items }
    ensures { MatchResult result (RunsLines S.state whole shelf lines.items) (λ back. back ≡ shelf) }
{
    let Ok(unbegun) = Vec::with_capacity(alloc, lines.len()) else {
        return Err(shelf);
    };
    runs_keep_histories(&shelf);
    match World::open(alloc, whole, shelf) {
        Ok(world) => {
            pieces_cover_requests();
            Ok(ran_of(run_alone(world, lines, gate), unbegun))
        }
        Err(refused) => Err(refused.shelf),
    }
}

// What is left of a run. The room is for the lines that weren't begun.
fn ran_of<S: Shelf>(run: Run<World<S>, DataLine>, unbegun: Answers) -> RanLines<S>
    requires none { unbegun.items ≡ [] }
    requires room { length (refused_answers run.refused) + length run.rest.items ≤ vec_capacity unbegun }
    ensures shelf { result.shelf ≡ run.world.shelf }
    ensures journal { result.journal.items ≡ run.world.core.lines.journal }
    ensures answers { result.answers.items ≡ run.world.core.lines.answers }
    ensures unbegun { result.unbegun.items ≡ unbegun_answers run.refused run.rest.items }
{
    let Run {
        world,
        refused,
        rest,
        wanted: _,
    } = run;
    let mut unbegun = unbegun;
    put_refused(refused, &mut unbegun);
    put_unanswered(rest, &mut unbegun);
    let Finished {
        shelf,
        journal,
        answers,
    } = world.finish();
    RanLines {
        shelf,
        journal,
        answers,
        unbegun,
    }
}

// Puts the line for which memory was wanted behind the others, if it was for one.
fn put_refused(refused: Option<DataLine>, answers: &mut Answers)
    requires room { vec_len answers.old + length (refused_answers refused) ≤ vec_capacity answers.old }
    ensures items { answers.new.items ≡ answers.old.items ++ refused_answers refused }
    ensures capacity { vec_capacity answers.new ≡ vec_capacity answers.old }
{
    if let Some(line) = refused {
        answers.push_reserved((line.line().number, Some(Answer::NoMemory)));
    }
}

// Puts these lines behind the others, without answers.
fn put_unanswered(lines: VecDeque<DataLine>, answers: &mut Answers)
    requires room { vec_len answers.old + length lines.items ≤ vec_capacity answers.old }
    ensures { answers.new.items ≡ answers.old.items ++ map unanswered lines.items }
{
    let mut rest = lines;
    while let Some(line) = rest.pop_front() {
        answers.push_reserved((line.line().number, None));
    }
}
