//! Runs of scripts on the small world.
ghost use Rattle.std.specs.Prelude.{◌≡◌, ◌<◌, [], length, slice_index_or, IfOk};

use crate::gates::{MeetingGate, ProgressGate};
use crate::small_world::{Limits, SmallWorld};
use command_table::Command;
use dev_shelf::{Images, MemShelf, Shelf, ShelfPlan};
use io_session::{run_alone, run_session};
use line_table::EntryKind;
use lvm_script::Line;
use sector_base::Sectors;
use std::alloc::{AllocError, Global};
use std::collections::VecDeque;
use std::test::Fail;
use table_lock::OpenGate;

/// Memory for every line, and two commits of a move.
const AMPLE: Limits = Limits {
    lines: 100_000,
    commits: 2,
    has_commit_memory: true,
};

// Lines with the numbers from 1 on.
fn numbered_lines(alloc: Global, count: u64) -> Result<VecDeque<Line>, AllocError> {
    let mut lines = VecDeque::new(alloc);
    for number in 0..count {
        lines.push_back(Line {
            number: number + 1,
            id: None,
            command: Command::Wait,
        })?;
    }
    Ok(lines)
}

// A disk of one sector in memory.
fn one_disk(alloc: Global) -> Result<MemShelf, AllocError>
    ensures idle { IfOk result (λ shelf. (⟦<MemShelf as Shelf>⟧.state shelf).in_flight ≡ []) }
    ensures disk { IfOk result (λ shelf. 0 < length (⟦<MemShelf as Shelf>⟧.state shelf).sizes) }
    ensures sector { IfOk result (λ shelf. 0 < slice_index_or (⟦<MemShelf as Shelf>⟧.state shelf).sizes 0 0) }
{
    let mut disks = Vec::new(alloc);
    disks.push(Sectors::zeroed(alloc, 1)?)?;
    let plan = ShelfPlan {
        picks: Vec::new(alloc),
        fails: Vec::new(alloc),
        holds: Vec::new(alloc),
        limit: 0,
    };
    MemShelf::new(alloc, Images::from_vec(disks), plan)
}

// Whether the world has begun the lines 1, 2 and so on, so many.
fn has_begun_in_order(world: &SmallWorld<MemShelf>, count: usize) -> bool {
    let mut expected = 1u64;
    for line in &world.lines {
        if line.number != expected {
            return false;
        }
        expected = expected.saturating_add(1);
    }
    world.lines.len() == count
}

// Whether this entry of the world's journal says that a line was begun.
fn is_begun_at(world: &SmallWorld<MemShelf>, place: usize) -> bool {
    match world.journal.get(place) {
        Some(entry) => entry.kind == EntryKind::Begun,
        None => false,
    }
}

// The number of this line, 0 where there is none.
fn number_of(line: Option<&Line>) -> u64 {
    match line {
        Some(line) => line.number,
        None => 0,
    }
}

#[test]
fn one_worker_begins_each_line_as_early_as_it_may(rt: HostRuntime) -> Result<(), Fail> {
    let world = SmallWorld::new(rt.alloc(), one_disk(rt.alloc())?, AMPLE);
    let run = run_alone(world, numbered_lines(rt.alloc(), 100)?, &OpenGate);
    assert!(rt; !run.wanted && run.refused.is_none() && run.rest.is_empty());
    assert!(rt; has_begun_in_order(&run.world, 100));
    assert_eq!(rt; run.world.journal.len(), 200);
    assert_eq!(rt; run.world.shelf.moments(), 200);
    assert!(rt;
        is_begun_at(&run.world, 0) && is_begun_at(&run.world, 1) && is_begun_at(&run.world, 2)
    );
    assert!(rt;
        !is_begun_at(&run.world, 3) && is_begun_at(&run.world, 4) && !is_begun_at(&run.world, 5)
    );
    Ok(())
}

#[test]
fn the_line_comes_back_for_which_memory_is_wanted(rt: HostRuntime) -> Result<(), Fail> {
    let limits = Limits { lines: 7, ..AMPLE };
    let world = SmallWorld::new(rt.alloc(), one_disk(rt.alloc())?, limits);
    let run = run_alone(world, numbered_lines(rt.alloc(), 100)?, &OpenGate);
    assert!(rt; run.wanted);
    assert!(rt; has_begun_in_order(&run.world, 7));
    assert_eq!(rt; number_of(run.refused.as_ref()), 8);
    assert_eq!(rt; number_of(run.rest.front()), 9);
    assert_eq!(rt; run.rest.len(), 92);
    assert_eq!(rt; run.world.journal.len(), 14);
    Ok(())
}

#[test]
fn a_move_is_committed_and_its_progress_told(rt: HostRuntime) -> Result<(), Fail> {
    let gate = ProgressGate::new();
    let world = SmallWorld::new(rt.alloc(), one_disk(rt.alloc())?, AMPLE);
    let run = run_alone(world, numbered_lines(rt.alloc(), 100)?, &gate);
    assert!(rt; !run.wanted && !run.world.is_halted);
    assert_eq!(rt; run.world.commits_due, 0);
    assert_eq!(rt; gate.last(), 100);
    assert!(rt; gate.times() >= 100);
    Ok(())
}

#[test]
fn a_move_is_given_up_where_memory_is_wanted(rt: HostRuntime) -> Result<(), Fail> {
    let limits = Limits {
        commits: 1,
        has_commit_memory: false,
        ..AMPLE
    };
    let world = SmallWorld::new(rt.alloc(), one_disk(rt.alloc())?, limits);
    let run = run_alone(world, numbered_lines(rt.alloc(), 100)?, &OpenGate);
    assert!(rt; run.wanted && run.world.is_halted && run.refused.is_none());
    assert!(rt; has_begun_in_order(&run.world, 3));
    assert_eq!(rt; number_of(run.rest.front()), 4);
    assert_eq!(rt; run.rest.len(), 97);
    Ok(())
}

#[test]
fn two_workers_meet_at_the_gate(rt: HostRuntime) -> Result<(), Fail> {
    let gate = MeetingGate::new();
    let world = SmallWorld::new(rt.alloc(), one_disk(rt.alloc())?, AMPLE);
    let lines = numbered_lines(rt.alloc(), 20)?;
    let run = run_session(&rt, rt.alloc(), world, lines, 2, &gate);
    assert!(rt; !run.wanted);
    assert!(rt; has_begun_in_order(&run.world, 20));
    assert_eq!(rt; gate.met(), 2);
    Ok(())
}

#[test]
fn eight_workers_begin_each_line_once(rt: HostRuntime) -> Result<(), Fail> {
    let gate = ProgressGate::new();
    let world = SmallWorld::new(rt.alloc(), one_disk(rt.alloc())?, AMPLE);
    let lines = numbered_lines(rt.alloc(), 2_000)?;
    let run = run_session(&rt, rt.alloc(), world, lines, 8, &gate);
    assert!(rt; !run.wanted && run.refused.is_none() && run.rest.is_empty());
    assert!(rt; has_begun_in_order(&run.world, 2_000));
    assert_eq!(rt; run.world.journal.len(), 4_000);
    assert_eq!(rt; run.world.commits_due, 0);
    assert_eq!(rt; gate.times(), 2_000);
    Ok(())
}
