//! The parts of legs, cut where one more leg goes on from run to run.
ghost use Rattle.std.specs.Prelude.{◌≡◌, ◌+◌, ◌++◌, ◌<◌, ◌≤◌, ◌^◌, All, IfOk, OnOk, drop, length};
ghost use Rattle.extent_alloc.specs.Laying as specs;

use crate::part::PvRun;
use crate::{Part, PartRun, PartRuns};
use std::alloc::{AllocError, Global};

// One part of so many extents, without a leg.
pub(crate) fn whole(alloc: Global, extents: u64) -> Result<Vec<Part>, AllocError>
    ensures { IfOk result (λ parts. parts.items ≡ specs.whole_part extents) }
{
    let mut parts = Vec::new(alloc);
    parts.push(Part {
        extents,
        runs: PartRuns::from_vec(Vec::new(alloc)),
    })?;
    Ok(parts)
}

// The pieces of the parts, with one more leg, which takes the runs one after another. What is left of these stays.
pub(crate) fn lay(
    alloc: Global,
    parts: &[Part],
    runs: &mut [PvRun],
) -> Result<Vec<Part>, AllocError>
    requires parts { All specs.PartEnds parts.now }
    requires runs { All specs.RunEnds runs.old }
    ensures { IfOk result (λ laid. laid.items ≡ specs.laid_on parts.now runs.old) }
{
    let mut laid = Vec::new(alloc);
    let mut at = 0;
    for part in parts {
        at = lay_part(alloc, &mut laid, part, runs, at)?;
    }
    Ok(laid)
}

// Adds those of one part, which takes the runs from this place on, and gives the place of the first run that is left.
fn lay_part(
    alloc: Global,
    laid: &mut Vec<Part>,
    part: &Part,
    runs: &mut [PvRun],
    from: usize,
) -> Result<usize, AllocError>
    requires part { specs.PartEnds part.now }
    requires runs { All specs.RunEnds runs.old }
    ensures laid { OnOk result (laid.new.items ≡ laid.old.items ++ specs.pieces part.now 0 part.now.extents (drop from runs.old)) }
    ensures left { IfOk result (λ at. drop at runs.new ≡ specs.left_of part.now.extents (drop from runs.old)) }
    ensures ends { All specs.RunEnds runs.new }
{
    let mut done = 0;
    for at in from..runs.len() {
        let left = part.extents - done;
        if left == 0 {
            return Ok(at);
        }
        let run = runs[at];
        if left < run.count {
            laid.push(piece(alloc, part, done, left, run)?)?;
            runs[at] = behind(run, left);
            return Ok(at);
        }
        laid.push(piece(alloc, part, done, run.count, run)?)?;
        done += run.count;
    }
    Ok(runs.len())
}

// So many extents of the part from one on, with one more leg that begins where the run does.
fn piece(alloc: Global, part: &Part, from: u64, count: u64, run: PvRun) -> Result<Part, AllocError>
    requires ends { specs.PartEnds part.now }
    requires within { from ≤ part.now.extents }
    ensures { IfOk result (λ piece. piece ≡ specs.piece part.now from count run) }
{
    let mut runs = Vec::new(alloc);
    add_later(&mut runs, part.runs.as_slice(), from)?;
    runs.push(PartRun {
        pv: run.pv,
        first: run.first,
    })?;
    Ok(Part {
        extents: count,
        runs: PartRuns::from_vec(runs),
    })
}

// Adds each of them, so many extents later.
fn add_later(runs: &mut Vec<PartRun>, begins: &[PartRun], by: u64) -> Result<(), AllocError>
    requires { All (λ begin. begin.first + by < 2 ^ 64) begins.now }
    ensures { OnOk result (runs.new.items ≡ runs.old.items ++ specs.all_later by begins.now) }
{
    for begin in begins {
        runs.push(PartRun {
            pv: begin.pv,
            first: begin.first + by,
        })?;
    }
    Ok(())
}

// The run without its first extents.
fn behind(run: PvRun, n: u64) -> PvRun
    requires ends { specs.RunEnds run }
    requires within { n ≤ run.count }
    ensures { result ≡ specs.behind n run }
{
    PvRun {
        pv: run.pv,
        first: run.first + n,
        count: run.count - n,
    }
}
