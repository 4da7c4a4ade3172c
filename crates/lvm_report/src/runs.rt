//! How many extents runs have.
ghost use Rattle.std.specs.Prelude.{◌≡◌, ◌<◌, ◌^◌, sum_by};
ghost use Rattle.extent_map.specs.declared.extent_run.ExtentRun.{ExtentRun as RunOf};

use extent_map::ExtentRun;

// How many they have together.
pub(crate) fn total(runs: &[ExtentRun]) -> u64
    requires { sum_by (λ (run : RunOf). run.count) runs.now < 2 ^ 64 }
    ensures { result ≡ sum_by (λ (run : RunOf). run.count) runs.now }
{
    let mut total = 0;
    for run in runs {
        total += run.count;
    }
    total
}
