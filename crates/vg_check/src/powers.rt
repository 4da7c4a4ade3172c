//! Powers of two.
ghost use Rattle.std.specs.Prelude.{◌↔◌, IsTrue};
ghost use Rattle.volume_rules.specs.Rules.{IsPowerOfTwo};

// Whether a number is a power of two.
pub(crate) fn is_power_of_two(n: u64) -> bool
    ensures { IsTrue result ↔ IsPowerOfTwo n }
{
    n.is_power_of_two()
}
