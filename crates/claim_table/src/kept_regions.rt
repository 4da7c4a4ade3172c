//! Regions in their order, of which a search learns by steps alone.
ghost use Rattle.std.specs.Prelude.{◌≡◌, ◌<◌, ◌+◌, length, slice_index_or};
ghost use Rattle.std.specs.Ordering.{nat_cmp};
ghost use Rattle.std.specs.VecDeque.{deque_len};

use std::cmp::Ordering;
use std::collections::VecDeque;
use std::marker::Model;
use std::sync::ledger::Ledger;
use step_count::Steps;

/// Some regions. Contracts see the list of them.
#[derive(Drop)]
pub(crate) struct KeptRegions<'a> {
    regions: &'a VecDeque<u64>,
}

impl<'a> Model for KeptRegions<'a> {
    ghost use Rattle.std.specs.Prelude.{◌≡◌, ℕ, List, length};
    ghost use Rattle.std.specs.VecDeque.{deque_len};

    ghost Value = { List ℕ };

    ghost view = { λ kept. kept.regions.now.items };

    ghost invariant = { λ kept. deque_len kept.regions.now ≡ length kept.regions.now.items };
}

impl<'a> KeptRegions<'a> {
    /// These.
    pub(crate) fn of(regions: &'a VecDeque<u64>) -> Self
        requires { deque_len regions.now ≡ length regions.now.items }
        ensures { result ≡ regions.now.items }
    {
        KeptRegions { regions }
    }

    /// How many they are.
    pub(crate) fn len(&self) -> usize
        ensures { result ≡ length self.now }
    {
        self.regions.len()
    }

    /// How the one at this place compares with a region, by one step.
    pub(crate) fn compare<L: Ledger>(
        &self,
        at: usize,
        region: u64,
        steps: &mut Steps<L>,
    ) -> Ordering
        requires { at < length self.now }
        ensures answer { result ≡ nat_cmp (slice_index_or self.now at 0) region }
        ensures step { steps.new ≡ steps.old + 1 }
    {
        let kept = self.regions.get(at).copied().unwrap_or(0);
        steps.compare(kept, region)
    }
}
