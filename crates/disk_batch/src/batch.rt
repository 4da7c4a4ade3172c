//! A batch before it starts.
ghost use Rattle.std.specs.Prelude.{◌≡◌, ◌≤◌, ◌<◌, ◌+◌, ◌^◌, ◌-◌, ℕ, List, [], length, map, max, min, sum_by, vec_len, vec_capacity, All, IfOk, IfErr};
ghost use Rattle.disk_batch.specs.Blocks.{in_blocks};
ghost use Rattle.disk_batch.specs.Parts.{IsPartOf, IsSmall, part_put};
ghost use Rattle.disk_batch.specs.Rest.{CanFollow, rest_of};
ghost use Rattle.disk_batch.specs.Writes.{LieIn, span_count, disks_in};

use crate::blocks::first_and_rest;
use crate::rest::Rest;
use crate::submitting::{submit_flushes, submit_writes};
use crate::{Batching, Writes};
use disk_model::Shelf;
use sector_base::{PvSet, Sectors, Span};
use std::alloc::{AllocError, Global};

/// Writes, and the disks that are flushed once all have completed well.
#[derive(Drop)]
pub struct Batch {
    // Those that are submitted at the start.
    first: Writes,
    rest: Rest,
    disks: Vec<u32>,
    tags: Vec<u64>,
    ghost some_disk: { 0 < length disks.items },
    ghost follow: { CanFollow first (rest_of rest) },
    ghost no_tags: { tags.items ≡ [] },
    ghost room_for_writes: { length first ≤ vec_capacity tags },
    ghost room_for_flushes: { vec_len disks ≤ vec_capacity tags },
}

/// The writes of a batch for which memory was wanting.
#[derive(Debug, Drop)]
pub struct BatchRefused {
    pub writes: Writes,
}

impl Batch {
    ghost use Rattle.disk_batch.specs.Batches.{Starts, writes_of, disks_of, view_of};

    /// A batch of these writes, with flushes of these disks, at least one. Only memory can be wanting, and the writes
    /// come back then.
    pub fn new(alloc: Global, writes: Writes, flush: PvSet) -> Result<Batch, BatchRefused>
        requires flush { 0 < length (disks_in flush) }
        ensures writes { IfOk result (λ batch. writes_of batch ≡ writes) }
        ensures disks { IfOk result (λ batch. disks_of batch ≡ disks_in flush) }
        ensures refused { IfErr result (λ refused. refused.writes ≡ writes) }
    {
        let Ok(disks) = disks_of_set(alloc, flush) else {
            return Err(BatchRefused { writes });
        };
        let room = writes.len().max(disks.len());
        let Ok(tags) = Vec::with_capacity(alloc, room) else {
            return Err(BatchRefused { writes });
        };
        Ok(Batch {
            first: writes,
            rest: Rest::none(alloc),
            disks,
            tags,
        })
    }

    /// A batch that writes parts of one text, each from a place in it on, with flushes of these disks, at least one. The
    /// parts are written in blocks of 128 sectors, which share so many buffers, and what is left of each behind them. Only
    /// memory can be wanting.
    pub fn of_parts(
        alloc: Global,
        text: Sectors,
        parts: &[(Span, usize)],
        flush: PvSet,
    ) -> Result<Batch, AllocError>
        requires flush { 0 < length (disks_in flush) }
        requires small { All IsSmall parts.now }
        requires parts { All (IsPartOf (length text)) parts.now }
        ensures writes { IfOk result (λ batch. writes_of batch ≡ in_blocks (map (part_put text) parts.now)) }
        ensures disks { IfOk result (λ batch. disks_of batch ≡ disks_in flush) }
    {
        let disks = disks_of_set(alloc, flush)?;
        let (first, rest) = first_and_rest(alloc, text, parts)?;
        let tags = Vec::with_capacity(alloc, first.len().max(disks.len()))?;
        Ok(Batch {
            first,
            rest,
            disks,
            tags,
        })
    }

    /// How many operations and sectors a shelf must have spare for it. A number past 2^64 - 1 is given as that.
    pub fn needs(&self) -> (u64, u64)
        ensures ops { result.0 ≡ min (length (writes_of self.now) + length (disks_of self.now)) (2 ^ 64 - 1) }
        ensures sectors { result.1 ≡ min (sum_by span_count (writes_of self.now)) (2 ^ 64 - 1) }
    {
        let first = self.first.len() as u64 + self.disks.len() as u64;
        let rest = self.rest.needs();
        (
            first.saturating_add(rest.0),
            count_sectors(self.first.as_slice()).saturating_add(rest.1),
        )
    }

    /// Submits the first of the writes in their order, all of them but for blocks past the first 64 and what is behind those,
    /// or the flushes where there is no write.
    pub fn start<S: Shelf>(self, shelf: &mut S) -> Batching
        requires lie { LieIn (S.state shelf.old).sizes (writes_of self) }
        requires disks { All (λ pv. pv < length (S.state shelf.old).sizes) (disks_of self) }
        requires ops { length (writes_of self) + length (disks_of self) ≤ (S.state shelf.old).spare_ops }
        requires sectors { sum_by span_count (writes_of self) ≤ (S.state shelf.old).spare_sectors }
        ensures { Starts (S.state shelf.old) (writes_of self) (disks_of self) (view_of result) (S.state shelf.new) }
    {
        let Batch {
            first,
            rest,
            disks,
            mut tags,
            ..
        } = self;
        let flushing = first.len() == 0;
        if flushing {
            submit_flushes(&disks, &mut tags, shelf);
        } else {
            submit_writes(first.into_vec(), &mut tags, shelf);
        }
        Batching::from_parts(disks, tags, flushing, rest)
    }
}

// The numbers in the set, in order.
fn disks_of_set(alloc: Global, set: PvSet) -> Result<Vec<u32>, AllocError>
    ensures { IfOk result (λ disks. disks.items ≡ disks_in set) }
{
    let mut disks = Vec::new(alloc);
    for pv in 0..64u32 {
        if set.contains(pv) {
            disks.push(pv)?;
        }
    }
    Ok(disks)
}

// How many sectors the writes have, or 2^64 - 1 where there are more.
pub(crate) fn count_sectors(writes: &[(Span, Sectors)]) -> u64
    ensures { result ≡ min (sum_by span_count writes.now) (2 ^ 64 - 1) }
{
    let mut total = 0u64;
    for (span, _) in writes {
        total = total.saturating_add(u64::from(span.count));
    }
    total
}
