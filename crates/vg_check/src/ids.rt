//! Whether the ids of a group and of its volumes differ.
//!
//! The volumes of each kind are put in blocks, in the order of their ids: then neighbours are compared, and the ids that stand
//! beside the block are sought in it. A block is as long as the room for runs, and has 64 volumes at least. A group that was
//! read has room for all its physical volumes, so there is one block of each kind.
ghost use Rattle.std.specs.Prelude.{◌≡◌, ◌≤◌, ◌+◌, ◌↔◌, IsTrue, length, vec_len};
ghost use Rattle.std.specs.List.{AllAdjacentBelow};
ghost use Rattle.volume_rules.specs.Rules.{IdsDiffer};
ghost use Rattle.vg_check.specs.Ids.{kind_ids, IdsDifferAt, IdsStandApart, IsSortedById, NoneBeforeHas, NoneHas};

use crate::block::{has_id, neighbours_differ, number_block, sort_by_id};
use crate::kind::{Kind, count, id_at};
use crate::open_group::OpenGroup;
use meta_model::ExtentSpan;

// The volumes of a block where there is little room.
const FEW: usize = 64;

const NO_RUN: ExtentSpan = ExtentSpan {
    on: 0,
    first: 0,
    count: 0,
};

// Whether no id of the group stands twice.
pub(crate) fn ids_differ(group: &OpenGroup, runs: &mut Vec<ExtentSpan>) -> bool
    ensures differ { IsTrue result ↔ IdsDiffer group.now }
    ensures kept { vec_len runs.new ≡ vec_len runs.old }
{
    if runs.len() < FEW {
        let mut block = [NO_RUN; FEW];
        both_differ(group, &mut block)
    } else {
        both_differ(group, runs)
    }
}

// The same by blocks of this length.
fn both_differ(group: &OpenGroup, block: &mut [ExtentSpan]) -> bool
    requires { 1 ≤ length block.old }
    ensures { IsTrue result ↔ IdsDiffer group.now }
{
    kind_differs(group, Kind::Pv, block) && kind_differs(group, Kind::Lv, block)
}

// Whether the ids of the volumes of this kind differ from each other, and from those of the group and of an earlier kind.
fn kind_differs(group: &OpenGroup, kind: Kind, block: &mut [ExtentSpan]) -> bool
    requires { 1 ≤ length block.old }
    ensures { IsTrue result ↔ IdsStandApart group.now kind 0 (length (kind_ids group.now kind)) }
{
    let total = count(group, kind);
    let mut from = 0;
    while from < total {
        let to = if total - from < block.len() {
            total
        } else {
            from + block.len()
        };
        if !block_differs(group, kind, from, to, &mut block[..to - from]) {
            return false;
        }
        from = to;
    }
    true
}

// Whether the ids of the volumes with these numbers differ from each other, from those of later ones, and from those of
// the group and of an earlier kind.
fn block_differs(
    group: &OpenGroup,
    kind: Kind,
    from: usize,
    to: usize,
    block: &mut [ExtentSpan],
) -> bool
    requires long { from + length block.old ≡ to }
    requires within { to ≤ length (kind_ids group.now kind) }
    ensures { IsTrue result ↔ IdsStandApart group.now kind from to }
{
    number_block(block, from);
    sort_by_id(group, kind, block);
    sorted_block_differs(group, kind, to, block)
}

// The same of a block in order, whose volumes end there.
fn sorted_block_differs(group: &OpenGroup, kind: Kind, to: usize, block: &[ExtentSpan]) -> bool
    requires { IsSortedById group.now kind block.now }
    ensures { IsTrue result ↔ (AllAdjacentBelow (IdsDifferAt group.now kind) block.now (length block.now) × NoneHas group.now kind block.now kind to × NoneBeforeHas group.now kind block.now) }
{
    neighbours_differ(group, kind, block)
        && none_has(group, kind, block, kind, to)
        && none_before_has(group, kind, block)
}

// Whether neither the group nor a volume of an earlier kind has an id of the block.
fn none_before_has(group: &OpenGroup, kind: Kind, block: &[ExtentSpan]) -> bool
    requires { IsSortedById group.now kind block.now }
    ensures { IsTrue result ↔ NoneBeforeHas group.now kind block.now }
{
    if has_id(group, kind, block, group.own_id()) {
        return false;
    }
    match kind {
        Kind::Pv => true,
        Kind::Lv => none_has(group, kind, block, Kind::Pv, 0),
    }
}

// Whether no volume of the other kind has an id of the block, from this number on.
fn none_has(group: &OpenGroup, kind: Kind, block: &[ExtentSpan], other: Kind, from: usize) -> bool
    requires { IsSortedById group.now kind block.now }
    ensures { IsTrue result ↔ NoneHas group.now kind block.now other from }
{
    for number in from..count(group, other) {
        if has_id(group, kind, block, &id_at(group, other, number as u64)) {
            return false;
        }
    }
    true
}
