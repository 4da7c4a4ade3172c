//! Preparing a commit.
ghost use Rattle.std.specs.Prelude.{◌≡◌, ◌<◌, ℕ, List, length, IfOk, IfErr, All, MatchResult};
ghost use Rattle.std.specs.FinSet as set;
ghost use Rattle.conf_text.specs.Printed.{printed};
ghost use Rattle.meta_print.specs.Layout.{tree_of};
ghost use Rattle.disk_batch.specs.Batches.{writes_of, disks_of};
ghost use Rattle.disk_batch.specs.Parts.{IsPartOf, IsSmall};
ghost use Rattle.disk_batch.specs.Writes.{disks_in};
ghost use Rattle.vg_commit.specs.TooLarge.{IsCause};
ghost use Rattle.vg_commit.specs.Plans.{IsPlan};
ghost use Rattle.vg_commit.specs.declared.refusal.CommitRefusal.TheVariants.{NoMemory};
ghost use Rattle.vg_commit.specs.Preparing.{AreCommitted, AreWithin, CanStart, HasBatches, IsPrepared, area_disks, with_disks};

use crate::plan::{Plan, plan_of};
use crate::{CommitRefusal, Prepared};
use disk_batch::{Batch, Writes};
use mda_ring::Areas;
use meta_print::text_of;
use sector_base::{PvSet, Sectors, Span, Text};
use std::alloc::Global;
use vg_check::Checked;

/// Prepares the commit of the group's text, with this time in seconds since 1970.
///
/// # Errors
///
/// As `prepare_text`.
pub fn prepare(
    alloc: Global,
    areas: &Areas,
    flush: PvSet,
    group: &Checked,
    now: u64,
) -> Result<Prepared, CommitRefusal>
    requires { AreCommitted areas.now flush }
    ensures prepared { MatchResult result (λ prepared. IsPrepared prepared areas.now flush (printed (tree_of group.now now))) (IsCause (printed (tree_of group.now now)) areas.now) }
    ensures can_start { (sizes : List ℕ) → AreWithin sizes areas.now flush → IfOk result (λ prepared. CanStart sizes prepared × AreWithin sizes prepared.areas flush) }
{
    let text = text_of(alloc, group.group(), now)?;
    prepare_text(alloc, areas, flush, &text)
}

/// Prepares the commit of the text to these areas, each with the entry of its committed text. Each disk of `flush` is
/// flushed before a header is written.
///
/// # Errors
///
/// `TooLarge` exactly where an area can't take the text, which is stored with a zero byte behind it, beside its
/// committed one, with the numbers of the first such area; `NoMemory` where memory is wanting, and for a text of 2^40
/// bytes or more.
#[tactic(auto, using(crate::proofs::Disks::flush_some))]
pub fn prepare_text(
    alloc: Global,
    areas: &Areas,
    flush: PvSet,
    text: &Text,
) -> Result<Prepared, CommitRefusal>
    requires { AreCommitted areas.now flush }
    ensures prepared { MatchResult result (λ prepared. IsPrepared prepared areas.now flush text.now) (IsCause text.now areas.now) }
    // It can start on each row of disks in which the areas and the disks to be flushed lie, and so can the next one.
    ensures can_start { (sizes : List ℕ) → AreWithin sizes areas.now flush → IfOk result (λ prepared. CanStart sizes prepared × AreWithin sizes prepared.areas flush) }
{
    let plan = plan_of(alloc, areas.as_slice(), text)?;
    let disks = disks_of_areas(areas);
    batches_of(alloc, plan, flush, disks)
}

// The disks of the areas.
fn disks_of_areas(areas: &Areas) -> PvSet
    requires { All (λ area. area.0.pv < 64) areas.now }
    ensures { result ≡ area_disks areas.now }
{
    let mut disks = PvSet::new();
    for (area, _) in areas.as_slice() {
        disks.insert(area.pv);
    }
    disks
}

// The three batches of the plan.
fn batches_of(
    alloc: Global,
    plan: Plan,
    flush: PvSet,
    disks: PvSet,
) -> Result<Prepared, CommitRefusal>
    requires small { All IsSmall plan.texts.items }
    requires parts { All (IsPartOf (length plan.text)) plan.texts.items }
    requires flush { 0 < length (disks_in flush) }
    requires disks { 0 < length (disks_in disks) }
    ensures batches { IfOk result (λ prepared. HasBatches plan flush disks prepared) }
    ensures cause { IfErr result (λ refusal. refusal ≡ NoMemory) }
{
    let Plan {
        text,
        texts,
        headers,
        publish,
        areas,
    } = plan;
    let texts = Batch::of_parts(alloc, text, &texts, flush)?;
    let headers = batch_of(alloc, headers, disks)?;
    let publish = batch_of(alloc, publish, disks)?;
    Ok(Prepared {
        texts,
        headers,
        publish,
        areas: Areas::from_vec(areas),
    })
}

// A batch of these writes.
fn batch_of(alloc: Global, list: Vec<(Span, Sectors)>, flush: PvSet) -> Result<Batch, CommitRefusal>
    requires { 0 < length (disks_in flush) }
    ensures writes { IfOk result (λ batch. writes_of batch ≡ list.items) }
    ensures disks { IfOk result (λ batch. disks_of batch ≡ disks_in flush) }
    ensures cause { IfErr result (λ refusal. refusal ≡ NoMemory) }
{
    match Batch::new(alloc, Writes::from_vec(list), flush) {
        Ok(batch) => Ok(batch),
        Err(_) => Err(CommitRefusal::NoMemory),
    }
}
