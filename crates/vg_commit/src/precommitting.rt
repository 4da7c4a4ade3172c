//! A commit on its way, before it is published.
ghost use Rattle.std.specs.Prelude.{◌≡◌, ◌≤◌, ◌↔◌, length, sum_by, IsTrue};
ghost use Rattle.disk_batch.specs.Fits.{HasBuffer};
ghost use Rattle.disk_batch.specs.Writes.{span_count};
ghost use Rattle.disk_model.specs.InFlight.{IsAmong};

use crate::{Precommitted, Prepared};
use disk_batch::{Batch, BatchStep, Batching};
use disk_model::{Done, Shelf};
use mda_ring::Areas;

/// A commit that writes the texts, and then the headers with the old entries in force, among other operations.
#[derive(Drop)]
pub struct Precommitting {
    // The batch on its way.
    batching: Batching,
    // That of the headers, until it is the one on its way.
    headers: Option<Batch>,
    publish: Batch,
    areas: Areas,
}

/// What a commit came to before it is published.
#[derive(Drop)]
pub enum PreStep {
    /// Operations of the commit are in flight.
    Going(Precommitting),
    /// The texts and the headers that name them last, and the disks have been flushed.
    Ready(Precommitted),
    /// All that it submitted has completed, and an operation on this disk failed. Nothing was published.
    Lost(u32),
}

impl Prepared {
    ghost use Rattle.vg_commit.specs.Phases.{StartsCommit, pre_view};
    ghost use Rattle.vg_commit.specs.Preparing.{CanRun, ops_of, sectors_in};

    /// Submits the writes of the texts, which begins the commit.
    pub fn start<S: Shelf>(self, shelf: &mut S) -> Precommitting
        requires can_run { CanRun (S.state shelf.old).sizes self.texts }
        requires ops { ops_of self.texts ≤ (S.state shelf.old).spare_ops }
        requires sectors { sectors_in self.texts ≤ (S.state shelf.old).spare_sectors }
        ensures { StartsCommit (S.state shelf.old) self (pre_view result) (S.state shelf.new) }
    {
        let Prepared {
            texts,
            headers,
            publish,
            areas,
        } = self;
        Precommitting {
            batching: texts.start(shelf),
            headers: Some(headers),
            publish,
            areas,
        }
    }
}

impl Precommitting {
    ghost use Rattle.vg_commit.specs.Phases.{FitsAhead, PreGoes, ops_ahead, pre_view, sectors_ahead};

    /// Whether the operation with this tag is the commit's own and hasn't completed.
    pub fn owns(&self, tag: u64) -> bool
        ensures { IsTrue result ↔ IsAmong (pre_view self.now).batch.tags tag }
    {
        self.batching.owns(tag)
    }

    /// Takes a completion of its own. Once the texts last it submits the headers.
    pub fn on_done<S: Shelf>(self, done: Done, shelf: &mut S) -> PreStep
        requires owns { IsAmong (pre_view self).batch.tags done.tag }
        requires ahead { FitsAhead (S.state shelf.old).sizes (pre_view self) }
        requires ops { ops_ahead (pre_view self) ≤ (S.state shelf.old).spare_ops }
        requires sectors { sectors_ahead (pre_view self) ≤ (S.state shelf.old).spare_sectors }
        requires buffer { HasBuffer (pre_view self).batch done }
        ensures { PreGoes (S.state shelf.old) (pre_view self) done result (S.state shelf.new) }
    {
        let Precommitting {
            batching,
            headers,
            publish,
            areas,
        } = self;
        match batching.on_done(done, shelf) {
            BatchStep::Going(batching) => PreStep::Going(Precommitting {
                batching,
                headers,
                publish,
                areas,
            }),
            BatchStep::Lost(pv) => PreStep::Lost(pv),
            BatchStep::Well => match headers {
                Some(headers) => PreStep::Going(Precommitting {
                    batching: headers.start(shelf),
                    headers: None,
                    publish,
                    areas,
                }),
                None => PreStep::Ready(Precommitted::new(publish, areas)),
            },
        }
    }
}
