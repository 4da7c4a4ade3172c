//! Where the segments of a volume start, of which a search learns by steps alone.
ghost use Rattle.std.specs.Prelude.{◌≡◌, ◌<◌, ◌≤◌, ◌+◌, ◌↔◌, IsTrue, Some, length, slice_get};
ghost use Rattle.meta_model.specs.declared.segment.Segment.{Segment as Row};

use meta_model::Segment;
use std::marker::Model;
use std::sync::ledger::Ledger;
use step_count::Steps;

/// The segments of a volume. Contracts see the list of them.
#[derive(Drop)]
pub(crate) struct Starts<'a> {
    segments: &'a [Segment],
}

impl<'a> Model for Starts<'a> {
    ghost use Rattle.std.specs.Prelude.{List};
    ghost use Rattle.meta_model.specs.declared.segment.Segment.{Segment as Row};

    ghost Value = { List Row };

    ghost view = { λ starts. starts.segments.now };
}

impl<'a> Starts<'a> {
    /// Those of these segments.
    pub(crate) fn of(segments: &'a [Segment]) -> Self
        ensures { result ≡ segments.now }
    {
        Starts { segments }
    }

    /// How many there are.
    pub(crate) fn len(&self) -> usize
        ensures { result ≡ length self.now }
    {
        self.segments.len()
    }

    /// Whether the segment with this number starts at the extent or before it, by one step.
    pub(crate) fn is_at_most<L: Ledger>(
        &self,
        number: usize,
        extent: u64,
        steps: &mut Steps<L>,
    ) -> bool
        requires { number < length self.now }
        ensures answer { (segment : Row) × (slice_get self.now number ≡ Some segment) × (IsTrue result ↔ (segment.start ≤ extent)) }
        ensures step { steps.new ≡ steps.old + 1 }
    {
        match self.segments.get(number) {
            Some(segment) => steps.is_at_most(segment.start, extent),
            None => false,
        }
    }
}
