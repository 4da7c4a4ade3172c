//! A world goes on by events.
use crate::data_line::DataLine;
use crate::world::World;
use disk_model::Shelf;
use io_session::{BeginRefused, Driven};
use std::alloc::AllocError;

impl<S: Shelf> Driven<DataLine> for World<S> {
    ghost use Rattle.std.specs.Prelude.{false, is_none, length, not};
    ghost use Rattle.std.specs.List.{list_any};
    ghost use Rattle.line_table.specs.Steps.{is_open};
    ghost use Rattle.world_acts.specs.Acts.{left_in, world};
    ghost use Rattle.io_core.specs.Events.{Makes};

    ghost begun = { λ w. w.core.lines.begun };

    ghost journal = { λ w. w.core.lines.journal };

    ghost in_flight = { λ w. length (S.state w.shelf).in_flight };

    ghost left = { λ w. left_in (world (S.state w.shelf) w.core) };

    ghost is_due = { λ w. false };

    ghost is_done = { λ w. not (list_any is_open w.core.lines.answers) };

    ghost allows = { λ w line. is_none w.core.barrier };

    ghost makes = { λ old event new. Makes (world (S.state old.shelf) old.core) event (world (S.state new.shelf) new.core) };

    fn may_begin(&self, line: &DataLine) -> bool {
        World::may_begin(self, line)
    }

    fn begin(&mut self, line: DataLine) -> Result<(), BeginRefused<DataLine>> {
        match World::begin(self, line) {
            Ok(_) => Ok(()),
            Err(refused) => Err(BeginRefused { line: refused.line }),
        }
    }

    fn is_due(&self) -> bool {
        false
    }

    fn tend(&mut self) -> Result<(), AllocError> {
        Ok(())
    }

    fn halt_move(&mut self) {}

    fn turn(&mut self) -> bool {
        World::turn(self)
    }

    fn settle(&mut self) -> bool {
        World::settle(self)
    }

    fn is_done(&self) -> bool {
        World::is_done(self)
    }

    fn progress(&self) -> Option<(u64, u64)> {
        None
    }
}
