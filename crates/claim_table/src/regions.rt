//! The regions of started pieces, sorted.
ghost use Rattle.std.specs.Prelude.{◌≡◌, ◌<◌, ◌≤◌, ◌+◌, ◌-◌, ◌*◌, ◌^◌, ◌∷◌, ◌==◌, ℕ, Some, Contains, MatchOption, length};
ghost use Rattle.std.specs.List.{list_any};
ghost use Rattle.std.specs.List.Sorted.{IsPermutation};
ghost use Rattle.std.specs.Ordering.{nat_cmp};
ghost use Rattle.std.specs.VecDeque.{deque_capacity, deque_len};
ghost use Rattle.claim_table.specs.Sorted.{IsAscending};

use crate::kept_regions::KeptRegions;
use crate::sorted::{put_in, take_out};
use std::cmp::Ordering;
use std::collections::VecDeque;
use std::sync::ledger::Ledger;
use step_count::Steps;

// Notes the region that a piece lies in, if it lies in one. There is room.
pub(crate) fn note_region(regions: &mut VecDeque<u64>, region: Option<u64>)
    requires room { deque_len regions.old < deque_capacity regions.old }
    requires counted { deque_len regions.old ≡ length regions.old.items }
    requires ascending { IsAscending nat_cmp regions.old.items }
    ensures ascending { IsAscending nat_cmp regions.new.items }
    ensures items { MatchOption region (regions.new.items ≡ regions.old.items) (λ r. IsPermutation (r ∷ regions.old.items) regions.new.items) }
    ensures length { deque_len regions.new ≤ deque_len regions.old + 1 }
    ensures counted { deque_len regions.new ≡ length regions.new.items }
    ensures capacity { deque_capacity regions.old ≤ deque_capacity regions.new }
{
    if let Some(region) = region {
        put_in(regions, region);
    }
}

// Takes out the region that a piece lay in, if it lay in one.
pub(crate) fn forget_region(regions: &mut VecDeque<u64>, region: Option<u64>)
    requires counted { deque_len regions.old ≡ length regions.old.items }
    requires there { (r : ℕ) → region ≡ Some r → Contains regions.old.items r }
    requires ascending { IsAscending nat_cmp regions.old.items }
    ensures ascending { IsAscending nat_cmp regions.new.items }
    ensures items { MatchOption region (regions.new.items ≡ regions.old.items) (λ r. IsPermutation regions.old.items (r ∷ regions.new.items)) }
    ensures length { deque_len regions.new ≤ deque_len regions.old }
    ensures counted { deque_len regions.new ≡ length regions.new.items }
    ensures capacity { deque_capacity regions.new ≡ deque_capacity regions.old }
{
    if let Some(region) = region {
        take_out(regions, &region);
    }
}

// Whether the region is among these, which are in order. A step is a comparison with one of them.
pub(crate) fn has_region<L: Ledger>(
    regions: &KeptRegions<'_>,
    region: u64,
    steps: &mut Steps<L>,
) -> bool
    requires { IsAscending nat_cmp regions.now }
    ensures answer { result ≡ list_any (λ r. r == region) regions.now }
    ensures bound { 2 ^ (steps.new - steps.old) ≤ 2 * length regions.now + 1 }
    ensures counted { steps.old ≤ steps.new }
{
    let mut low = 0;
    let mut high = regions.len();
    while low < high {
        let middle = low + (high - low) / 2;
        match regions.compare(middle, region, steps) {
            Ordering::Less => low = middle + 1,
            Ordering::Equal => return true,
            Ordering::Greater => high = middle,
        }
    }
    false
}
