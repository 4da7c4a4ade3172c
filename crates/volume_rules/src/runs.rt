//! Runs of extents in order, and whether they lie apart.
ghost use Rattle.std.specs.Prelude.{◌≡◌, ◌↔◌, IsTrue, All, AllPairs, length};
ghost use Rattle.std.specs.List.{AllAdjacentBelow};
ghost use Rattle.std.specs.List.Sorted.{IsPermutation};
ghost use Rattle.volume_rules.specs.Sorting.{CanBeSorted, EndsBefore, NoExtentInBoth, StandsBefore};

use meta_model::ExtentSpan;

/// Puts runs in the order of what they lie on, and then of their first extents.
pub fn sort_runs(runs: &mut [ExtentSpan])
    requires { All CanBeSorted runs.now }
    ensures order { AllAdjacentBelow StandsBefore runs.new (length runs.new) }
    ensures moved { IsPermutation runs.old runs.new }
{
    runs.sort_unstable_by_key(|run| (run.on as u128) * 0x1_0000_0000_0000_0000 + run.first as u128);
}

/// Whether no extent lies in two of the runs, which are put in order.
pub fn lie_apart(runs: &mut [ExtentSpan]) -> bool
    requires { All CanBeSorted runs.now }
    ensures apart { IsTrue result ↔ AllPairs NoExtentInBoth runs.old }
    ensures order { AllAdjacentBelow StandsBefore runs.new (length runs.new) }
    ensures moved { IsPermutation runs.old runs.new }
{
    sort_runs(runs);
    neighbours_lie_apart(runs)
}

// Whether each run ends before the next begins.
fn neighbours_lie_apart(runs: &[ExtentSpan]) -> bool
    requires { All CanBeSorted runs.now }
    ensures { IsTrue result ↔ AllAdjacentBelow EndsBefore runs.now (length runs.now) }
{
    for i in 1..runs.len() {
        if !ends_before(&runs[i - 1], &runs[i]) {
            return false;
        }
    }
    true
}

// Whether a run ends where the other begins, or before, or the other lies on a later volume.
fn ends_before(a: &ExtentSpan, b: &ExtentSpan) -> bool
    requires { CanBeSorted a.now }
    ensures { IsTrue result ↔ EndsBefore a.now b.now }
{
    a.on < b.on || (a.on == b.on && a.first + a.count <= b.first)
}
