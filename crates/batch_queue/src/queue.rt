//! A queue of batches.
ghost use Rattle.std.specs.Prelude.{◌≡◌, ◌≤◌, ◌<◌, ◌↔◌, length, reverse, All, IsTrue};
ghost use Rattle.disk_batch.specs.Fits.{HasBuffer, LiesOn};
ghost use Rattle.disk_batch.specs.InTurn.{CanRun, ops_of, sectors_of};
ghost use Rattle.disk_batch.specs.Views.{sectors_to_come, to_come};
ghost use Rattle.disk_model.specs.InFlight.{IsAmong};

use disk_batch::{Batch, BatchStep, Batching};
use disk_model::{Done, Shelf};

/// Batches that are still to be carried out. Nothing of them is in flight.
#[derive(Drop)]
pub struct Queue {
    // The next one is the last.
    ahead: Vec<Batch>,
}

/// A batch on its way, and those that are still to be carried out behind it.
#[derive(Drop)]
pub struct Turning {
    batching: Batching,
    ahead: Vec<Batch>,
}

/// What the batch on its way came to.
#[derive(Drop)]
pub enum TurnStep {
    /// Operations of it are in flight.
    Going(Turning),
    /// It is through, and lasts.
    Through(Queue),
    /// All that it submitted has completed, and an operation on this disk failed.
    Lost(u32),
}

impl Queue {
    ghost use Rattle.batch_queue.specs.Queues.{StartsNext, ahead_of, turn_view};

    /// The batches, to be carried out in this order.
    pub fn new(batches: Vec<Batch>) -> Queue
        ensures { ahead_of result ≡ reverse batches.items }
    {
        let mut ahead = batches;
        ahead.reverse();
        Queue { ahead }
    }

    /// How many there are.
    pub fn left(&self) -> usize
        ensures { result ≡ length (ahead_of self.now) }
    {
        self.ahead.len()
    }

    /// Starts the next batch: submits the first of its writes in their order, all of them but for blocks past the first 64 and
    /// what is behind those.
    pub fn start<S: Shelf>(self, shelf: &mut S) -> Turning
        requires some { 0 < length (ahead_of self) }
        requires can_run { All (CanRun (S.state shelf.old).sizes) (ahead_of self) }
        requires ops { All (λ batch. ops_of batch ≤ (S.state shelf.old).spare_ops) (ahead_of self) }
        requires sectors { All (λ batch. sectors_of batch ≤ (S.state shelf.old).spare_sectors) (ahead_of self) }
        ensures { StartsNext (S.state shelf.old) (ahead_of self) (turn_view result) (S.state shelf.new) }
    {
        let mut ahead = self.ahead;
        match ahead.pop() {
            Some(batch) => Turning {
                batching: batch.start(shelf),
                ahead,
            },
            None => unreachable!(),
        }
    }
}

impl Turning {
    ghost use Rattle.batch_queue.specs.Queues.{Turns, turn_view};

    /// Whether the operation with this tag is the batch's own and hasn't completed.
    pub fn owns(&self, tag: u64) -> bool
        ensures { IsTrue result ↔ IsAmong (turn_view self.now).batch.tags tag }
    {
        self.batching.owns(tag)
    }

    /// How many batches are still to be carried out behind it.
    pub fn left(&self) -> usize
        ensures { result ≡ length (turn_view self.now).ahead }
    {
        self.ahead.len()
    }

    /// Takes a completion of its own, and submits the next of the batch's writes that are still to be submitted. Once every write
    /// has completed well it submits the flushes.
    pub fn on_done<S: Shelf>(self, done: Done, shelf: &mut S) -> TurnStep
        requires owns { IsAmong (turn_view self).batch.tags done.tag }
        requires lies { LiesOn (S.state shelf.old).sizes (turn_view self).batch }
        requires ops { to_come (turn_view self).batch ≤ (S.state shelf.old).spare_ops }
        requires sectors { sectors_to_come (turn_view self).batch ≤ (S.state shelf.old).spare_sectors }
        requires buffer { HasBuffer (turn_view self).batch done }
        ensures { Turns (S.state shelf.old) (turn_view self) done result (S.state shelf.new) }
    {
        let Turning { batching, ahead } = self;
        match batching.on_done(done, shelf) {
            BatchStep::Going(batching) => TurnStep::Going(Turning { batching, ahead }),
            BatchStep::Well => TurnStep::Through(Queue { ahead }),
            BatchStep::Lost(pv) => TurnStep::Lost(pv),
        }
    }
}
