//! Whether runs in order cover a volume without a gap.
ghost use Rattle.std.specs.Prelude.{◌<◌, ◌+◌, ◌↔◌, ℕ, IsTrue, All, AllPairs};
ghost use Rattle.volume_rules.specs.Sorting.{CanBeSorted, EndsBefore};
ghost use Rattle.vg_check.specs.Covers.{EndsWithin, IsCovered};

use meta_model::ExtentSpan;

// Whether each of the first extents of a volume, so many, lies in one of these runs.
pub(crate) fn cover(runs: &[ExtentSpan], on: u64, extents: u64) -> bool
    requires sortable { All CanBeSorted runs.now }
    requires apart { AllPairs EndsBefore runs.now }
    requires within { All (EndsWithin on extents) runs.now }
    ensures { IsTrue result ↔ ((extent : ℕ) → extent < extents → IsCovered runs.now on extent) }
{
    let mut end = 0;
    for run in runs {
        if run.on == on {
            if run.first != end {
                return false;
            }
            end = run.first + run.count;
        }
    }
    end == extents
}
