//! Whether the numbers of a group lie within their limits.
ghost use Rattle.std.specs.Prelude.{◌≡◌, ◌≤◌, ◌%◌, ◌^◌, ◌↔◌, IsTrue, All};
ghost use Rattle.volume_rules.specs.Rules.{IsSmall, KindIsSmall, LvIsSmall, NumbersAreAllowed, PvIsSmall, SegmentIsSmall};
ghost use Rattle.vg_check.specs.OwnNumbers.{OwnNumbersAreAllowed};

use crate::limits::TOO_LARGE;
use crate::open_group::OpenGroup;
use meta_model::{Legs, Lv, LvRows, PvTable, SegKind, Segment, Segments};

// Whether each number of the group lies within its limits.
pub(crate) fn numbers_are_allowed(group: &OpenGroup) -> bool
    ensures { IsTrue result ↔ NumbersAreAllowed group.now }
{
    own_numbers_are_allowed(group) && volumes_are_small(&group.pvs, &group.lvs)
}

// The numbers that stand beside the volumes.
fn own_numbers_are_allowed(group: &OpenGroup) -> bool
    ensures { IsTrue result ↔ OwnNumbersAreAllowed group.now }
{
    seqno_is_allowed(group.seqno)
        && extent_size_is_allowed(group.extent_size)
        && limits_are_small(group.max_lv, group.max_pv, group.copies)
}

fn volumes_are_small(pvs: &PvTable, lvs: &LvRows) -> bool
    ensures { IsTrue result ↔ (All (λ pv. PvIsSmall pv.1) pvs.now × All (λ lv. LvIsSmall lv.1) lvs.now) }
{
    pvs_are_small(pvs) && lvs_are_small(lvs)
}

fn seqno_is_allowed(seqno: u64) -> bool
    ensures { IsTrue result ↔ ((1 ≤ seqno) × (seqno ≤ 4294967295)) }
{
    1 <= seqno && seqno <= 0xFFFF_FFFF
}

fn extent_size_is_allowed(extent_size: u64) -> bool
    ensures { IsTrue result ↔ ((8 ≤ extent_size) × (extent_size ≤ 2 ^ 31) × (extent_size % 8 ≡ 0)) }
{
    8 <= extent_size && extent_size <= 0x8000_0000 && extent_size % 8 == 0
}

fn limits_are_small(max_lv: u64, max_pv: u64, copies: u64) -> bool
    ensures { IsTrue result ↔ (IsSmall max_lv × IsSmall max_pv × IsSmall copies) }
{
    is_small(max_lv) && is_small(max_pv) && is_small(copies)
}

fn is_small(n: u64) -> bool
    ensures { IsTrue result ↔ IsSmall n }
{
    n < TOO_LARGE
}

fn pvs_are_small(pvs: &PvTable) -> bool
    ensures { IsTrue result ↔ All (λ pv. PvIsSmall pv.1) pvs.now }
{
    for number in 0..pvs.len() {
        let (_, pv) = pvs.get(number);
        if !sizes_are_small(pv.dev_size, pv.pe_start, pv.pe_count) {
            return false;
        }
    }
    true
}

fn sizes_are_small(dev_size: u64, pe_start: u64, pe_count: u64) -> bool
    ensures { IsTrue result ↔ (IsSmall dev_size × IsSmall pe_start × IsSmall pe_count) }
{
    is_small(dev_size) && is_small(pe_start) && is_small(pe_count)
}

fn lvs_are_small(lvs: &LvRows) -> bool
    ensures { IsTrue result ↔ All (λ lv. LvIsSmall lv.1) lvs.now }
{
    for number in 0..lvs.len() {
        let (_, lv) = lvs.get(number);
        if !lv_is_small(lv) {
            return false;
        }
    }
    true
}

fn lv_is_small(lv: &Lv) -> bool
    ensures { IsTrue result ↔ LvIsSmall lv.now }
{
    is_small(lv.created) && segments_are_small(&lv.segments)
}

fn segments_are_small(segments: &Segments) -> bool
    ensures { IsTrue result ↔ All SegmentIsSmall segments.now }
{
    for number in 0..segments.len() {
        if !segment_is_small(segments.get(number)) {
            return false;
        }
    }
    true
}

fn segment_is_small(segment: &Segment) -> bool
    ensures { IsTrue result ↔ SegmentIsSmall segment.now }
{
    is_small(segment.start) && is_small(segment.count) && kind_is_small(&segment.kind)
}

fn kind_is_small(kind: &SegKind) -> bool
    ensures { IsTrue result ↔ KindIsSmall kind.now }
{
    match kind {
        SegKind::Striped { stripe, legs } => is_small(*stripe) && legs_are_small(legs),
        SegKind::Mirror {
            region,
            moved: None,
            legs,
        } => is_small(*region) && legs_are_small(legs),
        SegKind::Mirror {
            region,
            moved: Some(moved),
            legs,
        } => is_small(*region) && is_small(*moved) && legs_are_small(legs),
    }
}

fn legs_are_small(legs: &Legs) -> bool
    ensures { IsTrue result ↔ All (λ leg. IsSmall leg.first) legs.now }
{
    legs.as_slice().iter().all(|leg| leg.first < TOO_LARGE)
}
