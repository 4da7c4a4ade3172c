//! Where a group breaks a rule.
ghost use Rattle.std.specs.Prelude.{◌≡◌, Err};

use volume_rules::Rule;

// A rule that a group breaks, and the places of `CheckRefused`.
#[derive(Clone, Copy)]
pub(crate) struct Offence {
    pub(crate) rule: Rule,
    pub(crate) at: u64,
    pub(crate) other: u64,
}

// The refusal of a group that breaks the rule there.
pub(crate) fn refused(rule: Rule, at: u64, other: u64) -> Result<(), Offence>
    ensures { result ≡ Err (record { rule = rule; at = at; other = other }) }
{
    Err(Offence { rule, at, other })
}
