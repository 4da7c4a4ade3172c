//! How many extents runs have.
ghost use Rattle.std.specs.Prelude.{◌≡◌, ◌<◌, ◌^◌};
ghost use Rattle.extent_alloc.specs.Few.{room_for};
ghost use Rattle.extent_alloc.specs.Free as specs;

use crate::Request;
use crate::part::PvRun;

// How many they have together.
pub(crate) fn total(runs: &[PvRun]) -> u64
    requires { specs.total runs.now < 2 ^ 64 }
    ensures { result ≡ specs.total runs.now }
{
    let mut total = 0;
    for run in runs {
        total += run.count;
    }
    total
}

// How many the longest has.
pub(crate) fn longest(runs: &[PvRun]) -> u64
    ensures { result ≡ specs.longest runs.now }
{
    let mut longest = 0;
    for run in runs {
        longest = longest.max(run.count);
    }
    longest
}

// How many of them one leg can have.
pub(crate) fn room(want: &Request, runs: &[PvRun]) -> u64
    requires { specs.total runs.now < 2 ^ 64 }
    ensures { result ≡ room_for want.now runs.now }
{
    if want.contiguous {
        longest(runs)
    } else {
        total(runs)
    }
}
