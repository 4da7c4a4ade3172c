//! A batch on its way.
ghost use Rattle.std.specs.Prelude.{◌≡◌, ◌≤◌, ◌<◌, ◌==◌, ◌↔◌, ℕ, List, length, filter, not, vec_len, vec_capacity, IsTrue, None};
ghost use Rattle.disk_model.specs.Operations.{disk_of as disk_number};
ghost use Rattle.disk_batch.specs.Fits.{HasBuffer, LiesOn};
ghost use Rattle.disk_batch.specs.Rest.{rest_of};
ghost use Rattle.disk_batch.specs.Views.{View, sectors_to_come, to_come};
ghost use Rattle.disk_model.specs.InFlight.{IsAmong};

use crate::rest::Rest;
use crate::submitting::{submit_flushes, submit_next};
use disk_model::{Done, Op, Shelf};

/// A batch whose operations are in flight.
#[derive(Drop)]
pub struct Batching {
    disks: Vec<u32>,
    tags: Vec<u64>,
    flushing: bool,
    lost: Option<u32>,
    rest: Rest,
    ghost room: { vec_len disks ≤ vec_capacity tags },
}

/// What a batch came to.
#[derive(Drop)]
pub enum BatchStep {
    /// Operations of the batch are in flight.
    Going(Batching),
    /// Every write and then every flush has completed well.
    Well,
    /// All that it submitted has completed, and the last operation that failed was on this disk.
    Lost(u32),
}

impl Batching {
    ghost use Rattle.disk_batch.specs.Batches.{Goes, view_of};

    // A batch that has submitted the operations with these tags.
    pub(crate) fn from_parts(disks: Vec<u32>, tags: Vec<u64>, flushing: bool, rest: Rest) -> Self
        requires room { vec_len disks ≤ vec_capacity tags }
        ensures { view_of result ≡ record { tags = tags.items; flush = disks.items; flushing = flushing; lost = None; rest = rest_of rest } }
    {
        Batching {
            disks,
            tags,
            flushing,
            lost: None,
            rest,
        }
    }

    /// Whether the operation with this tag is the batch's own and hasn't completed.
    pub fn owns(&self, tag: u64) -> bool
        ensures { IsTrue result ↔ IsAmong (view_of self.now).tags tag }
    {
        self.tags.contains(&tag)
    }

    /// Takes a completion of its own, and submits the next of the writes that are still to be submitted. Once every write has
    /// completed well it submits the flushes.
    pub fn on_done<S: Shelf>(self, done: Done, shelf: &mut S) -> BatchStep
        requires owns { IsAmong (view_of self).tags done.tag }
        requires lies { LiesOn (S.state shelf.old).sizes (view_of self) }
        requires ops { to_come (view_of self) ≤ (S.state shelf.old).spare_ops }
        requires sectors { sectors_to_come (view_of self) ≤ (S.state shelf.old).spare_sectors }
        requires buffer { HasBuffer (view_of self) done }
        ensures { Goes (S.state shelf.old) (view_of self) done result (S.state shelf.new) }
    {
        let Batching {
            disks,
            mut tags,
            flushing,
            lost,
            mut rest,
            ..
        } = self;
        let Done { tag, op, well } = done;
        let lost = if well { lost } else { Some(disk_of(&op)) };
        without(&mut tags, tag);
        if !flushing && submit_next(&mut rest, op, &mut tags, shelf) || !tags.is_empty() {
            return BatchStep::Going(Batching {
                disks,
                tags,
                flushing,
                lost,
                rest,
            });
        }
        if let Some(pv) = lost {
            return BatchStep::Lost(pv);
        }
        if flushing {
            return BatchStep::Well;
        }
        submit_flushes(&disks, &mut tags, shelf);
        BatchStep::Going(Batching {
            disks,
            tags,
            flushing: true,
            lost: None,
            rest,
        })
    }
}

// Takes the tag out.
fn without(tags: &mut Vec<u64>, tag: u64)
    requires among { IsAmong tags.old.items tag }
    ensures items { tags.new.items ≡ filter (λ t. not (t == tag)) tags.old.items }
    ensures fewer { vec_len tags.new < vec_len tags.old }
    ensures capacity { vec_capacity tags.new ≡ vec_capacity tags.old }
{
    tags.retain(|t| *t != tag);
}

// The disk of the operation.
fn disk_of(op: &Op) -> u32
    ensures { result ≡ disk_number op.now }
{
    match op {
        Op::Read(span, _) | Op::Write(span, _) => span.pv,
        Op::Flush(pv) => *pv,
    }
}
