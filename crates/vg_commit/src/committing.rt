//! A commit that is published.
ghost use Rattle.std.specs.Prelude.{◌≡◌, ◌≤◌, ◌↔◌, IsTrue};
ghost use Rattle.disk_batch.specs.Fits.{HasBuffer, LiesOn};
ghost use Rattle.disk_batch.specs.Views.{sectors_to_come, to_come};
ghost use Rattle.disk_model.specs.InFlight.{IsAmong};

use crate::Committed;
use disk_batch::{Batch, BatchStep, Batching};
use disk_model::{Done, Shelf};
use mda_ring::Areas;

/// A commit that is ready to be published: the texts and the headers that name them last, with the old entries in force.
#[derive(Drop)]
pub struct Precommitted {
    publish: Batch,
    areas: Areas,
}

/// A commit that puts the new entries in force, among other operations.
#[derive(Drop)]
pub struct Committing {
    batching: Batching,
    areas: Areas,
}

/// What a commit came to since it was published.
#[derive(Drop)]
pub enum ComStep {
    /// Operations of the commit are in flight.
    Going(Committing),
    /// The new entries are in force in each area, and last.
    Whole(Committed),
    /// All that it submitted has completed, and an operation on this disk failed. Each area shows its old text or the new
    /// one.
    Fenced(u32),
}

impl Precommitted {
    ghost use Rattle.vg_commit.specs.Phases.{Publishes, com_view, ready_view};
    ghost use Rattle.vg_commit.specs.Preparing.{CanRun, ops_of, sectors_in};

    // A commit that this batch publishes, with the areas' new entries.
    pub(crate) fn new(publish: Batch, areas: Areas) -> Self
        ensures { ready_view result ≡ record { publish = publish; areas = areas } }
    {
        Precommitted { publish, areas }
    }

    /// Submits the headers with the new entries in force. From here on the commit can't be taken back.
    pub fn publish<S: Shelf>(self, shelf: &mut S) -> Committing
        requires can_run { CanRun (S.state shelf.old).sizes self.publish }
        requires ops { ops_of self.publish ≤ (S.state shelf.old).spare_ops }
        requires sectors { sectors_in self.publish ≤ (S.state shelf.old).spare_sectors }
        ensures { Publishes (S.state shelf.old) (ready_view self) (com_view result) (S.state shelf.new) }
    {
        let Precommitted { publish, areas } = self;
        Committing {
            batching: publish.start(shelf),
            areas,
        }
    }
}

impl Committing {
    ghost use Rattle.vg_commit.specs.Phases.{ComGoes, com_view};

    /// Whether the operation with this tag is the commit's own and hasn't completed.
    pub fn owns(&self, tag: u64) -> bool
        ensures { IsTrue result ↔ IsAmong (com_view self.now).batch.tags tag }
    {
        self.batching.owns(tag)
    }

    /// Takes a completion of its own.
    pub fn on_done<S: Shelf>(self, done: Done, shelf: &mut S) -> ComStep
        requires owns { IsAmong (com_view self).batch.tags done.tag }
        requires lies { LiesOn (S.state shelf.old).sizes (com_view self).batch }
        requires ops { to_come (com_view self).batch ≤ (S.state shelf.old).spare_ops }
        requires sectors { sectors_to_come (com_view self).batch ≤ (S.state shelf.old).spare_sectors }
        requires buffer { HasBuffer (com_view self).batch done }
        ensures { ComGoes (S.state shelf.old) (com_view self) done result (S.state shelf.new) }
    {
        let Committing { batching, areas } = self;
        match batching.on_done(done, shelf) {
            BatchStep::Going(batching) => ComStep::Going(Committing { batching, areas }),
            BatchStep::Well => ComStep::Whole(Committed { areas }),
            BatchStep::Lost(pv) => ComStep::Fenced(pv),
        }
    }
}
