//! What a request is given.
ghost use Rattle.std.specs.Prelude.{◌≡◌, None, MatchResult};
ghost use Rattle.volume_rules.specs.Rules.{IsAccepted};
ghost use Rattle.extent_alloc.specs.Few.{AreFew};
ghost use Rattle.extent_alloc.specs.Giving.{IsGiven, IsRequest};
ghost use Rattle.extent_alloc.specs.Refusals.{IsRefused, refusal_of};

use crate::more_legs::more_legs;
use crate::one_leg::one_leg;
use crate::usable::{first_barred, usable_pvs};
use crate::{AllocRefusal, Given, Part, Request};
use meta_model::Group;
use std::alloc::Global;
use vg_check::Checked;

/// Free extents for the request, in as few parts as with one leg the free runs allow, and with more the first physical
/// volumes that have room.
///
/// # Errors
///
/// The first reason for which the request is refused, exactly where there is one, or that memory is wanting.
pub fn alloc(alloc: Global, group: &Checked, want: &Request) -> Result<Given, AllocRefusal>
    requires { IsRequest want.now }
    ensures { MatchResult result
        (λ given. IsGiven group.now want.now given × AreFew group.now want.now given × (refusal_of group.now want.now ≡ None))
        (IsRefused group.now want.now) }
{
    let parts = parts(alloc, group.group(), want)?;
    Ok(Given::from_vec(parts))
}

// The parts that are given.
fn parts(alloc: Global, group: &Group, want: &Request) -> Result<Vec<Part>, AllocRefusal>
    requires accepted { IsAccepted group.now }
    requires request { IsRequest want.now }
    ensures { MatchResult result
        (λ parts. IsGiven group.now want.now parts.items × AreFew group.now want.now parts.items × (refusal_of group.now want.now ≡ None))
        (IsRefused group.now want.now) }
{
    if let Some(pv) = first_barred(group, want) {
        return Err(AllocRefusal::NotAllocatable(pv));
    }
    let pvs = usable_pvs(alloc, group, want)?;
    if want.legs == 1 {
        one_leg(alloc, group, want, &pvs)
    } else {
        more_legs(alloc, group, want, &pvs)
    }
}
