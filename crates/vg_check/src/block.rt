//! Volumes in the order of their ids. A block names each by its number.
ghost use Rattle.std.specs.Prelude.{◌≡◌, ◌<◌, ◌+◌, ◌^◌, ◌↔◌, IsTrue, length};
ghost use Rattle.std.specs.List.{AllAdjacentBelow};
ghost use Rattle.std.specs.List.Sorted.{IsPermutation};
ghost use Rattle.vg_check.specs.Ids.{id_of, HasId, IdsDifferAt, IsNumbered, IsSortedById};

use crate::kind::{Kind, id_at, key_at};
use crate::open_group::OpenGroup;
use lvm_id::LvmId;
use meta_model::ExtentSpan;

// Names the volumes from this number on.
pub(crate) fn number_block(block: &mut [ExtentSpan], from: usize)
    requires { from + length block.old < 2 ^ 64 }
    ensures { IsNumbered from (length block.old) block.new }
{
    for i in 0..block.len() {
        block[i].on = (from + i) as u64;
    }
}

// Puts them in the order of their ids.
pub(crate) fn sort_by_id(group: &OpenGroup, kind: Kind, block: &mut [ExtentSpan])
    ensures order { IsSortedById group.now kind block.new }
    ensures moved { IsPermutation block.old block.new }
{
    block.sort_unstable_by_key(
        |run: &ExtentSpan| -> [u8; 32]
            ensures { result ≡ id_of group.entry.now kind run.now.on }
        { key_at(group, kind, run.on) },
    );
}

// Whether one has the id. They are in order.
pub(crate) fn has_id(group: &OpenGroup, kind: Kind, block: &[ExtentSpan], id: &LvmId) -> bool
    requires { IsSortedById group.now kind block.now }
    ensures { IsTrue result ↔ HasId group.now kind block.now id.now }
{
    block
        .binary_search_by_key(
            &id.plain(),
            |run: &ExtentSpan| -> [u8; 32]
                ensures { result ≡ id_of group.entry.now kind run.now.on }
            { key_at(group, kind, run.on) },
        )
        .is_ok()
}

// Whether the ids of neighbours differ.
pub(crate) fn neighbours_differ(group: &OpenGroup, kind: Kind, block: &[ExtentSpan]) -> bool
    ensures { IsTrue result ↔ AllAdjacentBelow (IdsDifferAt group.now kind) block.now (length block.now) }
{
    for i in 1..block.len() {
        if id_at(group, kind, block[i - 1].on) == id_at(group, kind, block[i].on) {
            return false;
        }
    }
    true
}
