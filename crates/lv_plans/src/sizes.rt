//! How many extents a volume is to have.
ghost use Rattle.std.specs.Prelude.{◌≡◌, ◌≤◌};
ghost use Rattle.lv_plans.specs.Sizes as specs;

use command_table::{Amount, Growth};

/// The amount in extents of so many sectors, a size rounded up to whole ones.
pub(crate) fn extents_for(extent_size: u64, amount: Amount) -> u64
    requires { 1 ≤ extent_size }
    ensures { result ≡ specs.extents_for extent_size amount }
{
    match amount {
        Amount::Extents(count) => count,
        Amount::Sectors(count) => count.div_ceil(extent_size),
    }
}

/// How many extents more than it has a volume is to have.
pub(crate) fn growth_for(extent_size: u64, has: u64, growth: Growth) -> u64
    requires { 1 ≤ extent_size }
    ensures { result ≡ specs.growth_for extent_size has growth }
{
    match growth {
        Growth::To(amount) => extents_for(extent_size, amount).saturating_sub(has),
        Growth::By(amount) => extents_for(extent_size, amount),
    }
}
