//! Commands that change something.
ghost use Rattle.std.specs.Prelude.{◌≡◌, ◌≤◌, ◌<◌, ◌^◌, [], true, length, All, IfOk, Option};
ghost use Rattle.command_table.specs.Values.{is_disk_name};
ghost use Rattle.vg_found.specs.Shape.{HasShape};
ghost use Rattle.vg_found.specs.Whole.{IsWhole};
ghost use Rattle.group_plan.specs.declared.backup.Backup.{Backup as BackupRecord};
ghost use Rattle.group_ops.specs.Laws.{state_in};
ghost use Rattle.group_ops.specs.Planning.{IsBackupOf, IsPlanned};
ghost use Rattle.change_batches.specs.Sound.{sizes_of};
ghost use Rattle.lvm_run.specs.Changing.{IsCarriedOut, IsChanged, changing, ending_of, outcome_of, took_of};
ghost use Rattle.lvm_run.specs.Disks.{AreDisks};
ghost use Rattle.lvm_run.specs.History.{IsEntered, journal_by, lines_by};
ghost use Rattle.lvm_run.specs.Meets.{Meets};
ghost use Rattle.lvm_run.specs.Runs.{context_with};

use crate::ending::Ending;
use crate::opening::open_disks;
use crate::outcome::Outcome;
use crate::timed_outcome::TimedOutcome;
use command_table::Command;
use disk_model::Shelf;
use group_plan::{Backup, GroupState, read_backup};
use line_answers::{Answer, DiskNames};
use line_history::{done_sets_agree, line_histories};
use lvm_script::Line;
use std::alloc::{AllocError, Global};
use vg_change::{ChangeFault, carry_out};
use vg_found::{Found, Whole};
use vg_repair::{RepairFault, repair};

/// Flushes and scans the disks, repairs what is stale, old or a stray, and carries the line out on what is found then, at this
/// time. All memory for a repair, and then for the line, is taken before anything of it is written.
pub fn run_change<S: Shelf>(
    alloc: Global,
    shelf: &mut S,
    names: &DiskNames,
    line: &Line,
    now: u64,
) -> TimedOutcome
    requires disks { AreDisks (length names.now) (S.state shelf.old) }
    requires some { 1 ≤ length names.now }
    requires few { length names.now ≤ 64 }
    requires named { All (λ name. is_disk_name name ≡ true) names.now }
    requires first { line.now.number ≡ 1 }
    requires planned { IsPlanned line.now.id line.now.command }
    requires time { now < 2 ^ 48 }
    ensures meets { Meets (changing line.now.command) (context_with names.now line.now.id now (S.state shelf.old)) (S.state shelf.old) result.outcome (S.state shelf.new) }
    ensures entered { IsEntered names.now now (S.state shelf.old) (journal_by result.begun result.took (S.state shelf.new).steps result.outcome) (lines_by line.now result.outcome) (S.state shelf.new) }
{
    // (what is proved of such runs)
    line_histories();
    done_sets_agree();
    match open_disks(alloc, shelf) {
        Ok(whole) => change_whole(alloc, shelf, names, whole, line, now),
        Err(ending) => TimedOutcome {
            outcome: Outcome::Ended(ending),
            begun: shelf.steps(),
            took: None,
        },
    }
}

// Repairs what was found on the disks, and carries the line out.
fn change_whole<S: Shelf>(
    alloc: Global,
    shelf: &mut S,
    names: &DiskNames,
    whole: Whole,
    line: &Line,
    now: u64,
) -> TimedOutcome
    requires idle { (S.state shelf.old).in_flight ≡ [] }
    requires shape { HasShape whole }
    requires all { IsWhole whole }
    requires count { length names.now ≡ length whole.disks }
    requires sizes { (S.state shelf.old).sizes ≡ sizes_of whole.disks }
    requires named { All (λ name. is_disk_name name ≡ true) names.now }
    requires planned { IsPlanned line.now.id line.now.command }
    requires time { now < 2 ^ 48 }
    ensures { IsChanged whole names.now line.now now (S.state shelf.old) result.outcome result.begun result.took (S.state shelf.new) }
{
    match repair(alloc, whole, shelf) {
        Ok(repaired) => {
            let begun = shelf.steps();
            let found = repaired.into_found();
            let (outcome, took) = change_found(alloc, shelf, names, found, line, now);
            TimedOutcome {
                outcome,
                begun,
                took,
            }
        }
        Err(fault) => TimedOutcome {
            outcome: Outcome::Ended(ending_of(fault)),
            begun: shelf.steps(),
            took: None,
        },
    }
}

/// How the run ends where the disks can't be repaired.
pub fn ending_of(fault: RepairFault) -> Ending
    ensures { result ≡ ending_of fault }
{
    match fault {
        RepairFault::NoMemory => Ending::NoMemory,
        RepairFault::Pv(pv) => Ending::RepairFailed(pv),
        RepairFault::TooLarge { pv, need, room } => Ending::RepairRefused { pv, need, room },
    }
}

// Carries the line out on what was found on the disks, and gives what it comes to, and the moment at which it took place, where
// it did.
fn change_found<S: Shelf>(
    alloc: Global,
    shelf: &mut S,
    names: &DiskNames,
    found: Found,
    line: &Line,
    now: u64,
) -> (Outcome, Option<u64>)
    requires idle { (S.state shelf.old).in_flight ≡ [] }
    requires shape { HasShape found }
    requires whole { IsWhole found }
    requires count { length names.now ≡ length found.disks }
    requires sizes { (S.state shelf.old).sizes ≡ sizes_of found.disks }
    requires named { All (λ name. is_disk_name name ≡ true) names.now }
    requires planned { IsPlanned line.now.id line.now.command }
    requires time { now < 2 ^ 48 }
    ensures { IsCarriedOut found names.now line.now now (S.state shelf.old) result.0 result.1 (S.state shelf.new) }
{
    let state = match state_of(alloc, found, names, &line.command) {
        Ok(state) => state,
        Err(AllocError) => return (Outcome::Answered(1, Answer::NoMemory), None),
    };
    outcome_of(carry_out(alloc, shelf, &state, line, now))
}

// What a line that was carried out, or a fault of it, comes to, and the moment at which it took place.
fn outcome_of(carried: Result<u64, ChangeFault>) -> (Outcome, Option<u64>)
    ensures { result ≡ (outcome_of carried, took_of carried) }
{
    match carried {
        Ok(made) => (Outcome::Answered(1, Answer::Fine), Some(made)),
        Err(ChangeFault::NoMemory) => (Outcome::Answered(1, Answer::NoMemory), None),
        Err(ChangeFault::Refused(refusal)) => {
            (Outcome::Answered(1, Answer::Refused(refusal)), None)
        }
        Err(ChangeFault::Failed(pv)) => (Outcome::Answered(1, Answer::PvFailed(pv)), None),
        Err(ChangeFault::Uncleared { pv, made }) => {
            (Outcome::Answered(1, Answer::PvFailed(pv)), Some(made))
        }
    }
}

// What the command is judged against.
fn state_of(
    alloc: Global,
    found: Found,
    names: &DiskNames,
    command: &Command,
) -> Result<GroupState, AllocError>
    ensures { IfOk result (λ state. (backup : Option BackupRecord) × IsBackupOf command.now backup × (state ≡ state_in found names.now backup)) }
{
    let backup = backup_of(alloc, command)?;
    let names = DiskNames::from_vec(names.as_vec().clone()?);
    let Found {
        group,
        disks,
        areas,
        disk_of,
        ..
    } = found;
    Ok(GroupState {
        group,
        disks,
        names,
        areas,
        disk_of,
        backup,
    })
}

// What the text of the command gives, where it restores a group.
fn backup_of(alloc: Global, command: &Command) -> Result<Option<Backup>, AllocError>
    ensures { IfOk result (IsBackupOf command.now) }
{
    match command {
        Command::Vgcfgrestore { vg: _, text } => Ok(Some(read_backup(alloc, text)?)),
        _ => Ok(None),
    }
}
