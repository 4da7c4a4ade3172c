//! The segment of a volume that has an extent, found by halving.
ghost use Rattle.std.specs.Prelude.{◌<◌, length, sum_by};
ghost use Rattle.volume_rules.specs.Rules.{Follow};
ghost use Rattle.seg_place.specs.Search.{HasExtent, Halves};

use crate::starts::Starts;
use std::sync::ledger::Ledger;
use step_count::Steps;

// The number of the segment that has the extent. Those that it may be are halved, by the first extent of the middle one.
pub(crate) fn number_with<L: Ledger>(
    segments: &Starts<'_>,
    extent: u64,
    steps: &mut Steps<L>,
) -> usize
    requires follow { Follow 0 segments.now }
    requires within { extent < sum_by (λ segment. segment.count) segments.now }
    ensures found { HasExtent segments.now extent result }
    ensures steps { Halves (length segments.now) steps.old steps.new }
{
    let mut low = 0;
    let mut high = segments.len();
    while high - low > 1 {
        let middle = low + (high - low) / 2;
        if segments.is_at_most(middle, extent, steps) {
            low = middle;
        } else {
            high = middle;
        }
    }
    low
}
