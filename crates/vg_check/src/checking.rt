//! The check of a group.
ghost use Rattle.std.specs.Prelude.{◌≡◌, MatchResult};
ghost use Rattle.meta_model.specs.Standing.{HasTree};
ghost use Rattle.volume_rules.specs.Offences.{IsOffence};
ghost use Rattle.volume_rules.specs.Rules.{IsAccepted, IsFirstBroken};

use crate::Checked;
use crate::open_group::{close, open};
use crate::order::examine;
use meta_model::Group;
use volume_rules::Rule;

/// A group that breaks a rule.
#[derive(Debug, Drop)]
pub struct CheckRefused {
    /// The group, as it came.
    pub group: Group,
    /// The first rule that it breaks.
    pub rule: Rule,
    /// The number of the volume at which it breaks a rule on volumes, segments or legs; of any other rule 0.
    pub at: u64,
    /// The number of that volume's segment, for a rule on segments or legs; of any other rule 0.
    pub other: u64,
}

/// The group as one that keeps all rules.
///
/// # Errors
///
/// The first rule that the group breaks, in their order, with its places, exactly where it breaks one. It comes back as it was.
pub fn check(group: Group) -> Result<Checked, CheckRefused>
    requires { HasTree group }
    ensures { MatchResult result
        (λ checked. (checked ≡ group) × IsAccepted group)
        (λ refused. (refused.group ≡ group) × IsFirstBroken group refused.rule × IsOffence group refused.rule refused.at refused.other) }
{
    let (group, mut runs) = open(group);
    let examined = examine(&group, &mut runs);
    let group = close(group, runs);
    match examined {
        Ok(()) => Ok(Checked::new(group)),
        Err(offence) => Err(CheckRefused {
            group,
            rule: offence.rule,
            at: offence.at,
            other: offence.other,
        }),
    }
}
