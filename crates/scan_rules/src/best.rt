//! The copy that is the group in force, and copies that deny it.
ghost use Rattle.std.specs.Prelude.{◌≡◌, ◌≤◌, drop, length, option_map};
ghost use Rattle.std.specs.Option.{option_and_then};
ghost use Rattle.scan_rules.specs.Decision.{best, two_groups, TwoGroups};
ghost use Rattle.scan_rules.specs.Flat.{all_held, greater_of, id_in, IsThat, other_among, other_of, seqno_in};

use crate::held::HeldCopy;
use crate::readings::GroupCopy;
use crate::same::same_id;
use lvm_id::LvmId;

// The first of the copies with the greatest sequence number.
pub(crate) fn best_copy(copies: &[GroupCopy], held: &[HeldCopy]) -> Option<HeldCopy>
    ensures { IsThat copies.now result (best (all_held copies.now held.now)) }
{
    let mut best = None;
    for i in (0..held.len()).rev() {
        best = greater(copies, held[i], best);
    }
    best
}

// The one of them with the greater sequence number, the first where both have one.
fn greater(copies: &[GroupCopy], one: HeldCopy, other: Option<HeldCopy>) -> Option<HeldCopy>
    ensures { result ≡ greater_of copies.now one other }
{
    let Some(own) = seqno_of(copies, one) else {
        return other;
    };
    let Some(second) = other else {
        return Some(one);
    };
    match seqno_of(copies, second) {
        Some(greatest) if greatest > own => other,
        _ => Some(one),
    }
}

// The sequence number of the copy.
fn seqno_of(copies: &[GroupCopy], held: HeldCopy) -> Option<u64>
    ensures { result ≡ seqno_in copies.now held }
{
    match copies.get(held.number) {
        Some(copy) => Some(copy.group.group().seqno),
        None => None,
    }
}

// The ids of the first copy's group, and of the first that is of another.
pub(crate) fn find_two_groups(copies: &[GroupCopy], held: &[HeldCopy]) -> Option<(LvmId, LvmId)>
    ensures { two_groups (all_held copies.now held.now) ≡ option_map (λ ids. TwoGroups ids.0 ids.1) result }
{
    for (i, one) in held.iter().enumerate() {
        if let Some(id) = id_of(copies, *one) {
            return paired(id, find_other(copies, held, i + 1, &id));
        }
    }
    None
}

// Both ids, where there is another.
fn paired(id: LvmId, other: Option<LvmId>) -> Option<(LvmId, LvmId)>
    ensures { result ≡ option_map (λ o. (id, o)) other }
{
    match other {
        Some(other) => Some((id, other)),
        None => None,
    }
}

// The id of the first group with another id, from the place `from` on.
fn find_other(copies: &[GroupCopy], held: &[HeldCopy], from: usize, id: &LvmId) -> Option<LvmId>
    requires { from ≤ length held.now }
    ensures { result ≡ other_among id.now (all_held copies.now (drop from held.now)) }
{
    for one in &held[from..] {
        if let Some(other) = other_id(copies, *one, id) {
            return Some(other);
        }
    }
    None
}

// The id of the copy's group, where it is another.
fn other_id(copies: &[GroupCopy], one: HeldCopy, id: &LvmId) -> Option<LvmId>
    ensures { result ≡ option_and_then (other_of id.now) (id_in copies.now one) }
{
    match id_of(copies, one) {
        Some(other) if !same_id(&other, id) => Some(other),
        _ => None,
    }
}

// The id of the copy's group.
fn id_of(copies: &[GroupCopy], held: HeldCopy) -> Option<LvmId>
    ensures { result ≡ id_in copies.now held }
{
    match copies.get(held.number) {
        Some(copy) => Some(copy.group.group().id),
        None => None,
    }
}
