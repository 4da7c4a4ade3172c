//! How many sectors a volume has.
ghost use Rattle.std.specs.Prelude.{◌≡◌};
ghost use Rattle.volume_rules.specs.Extents.{extents_of};
ghost use Rattle.volume_rules.specs.Rules.{Follow, LvIsSmall};
ghost use Rattle.seg_place.specs.Sectors.{sectors_of};

use meta_model::Lv;
use vg_check::Checked;

/// How many sectors the logical volume with this number has, 0 where there is none.
pub fn sectors(group: &Checked, lv: u32) -> u64
    ensures { result ≡ sectors_of group.now lv }
{
    let group = group.group();
    let number = lv as usize;
    if number >= group.lvs.len() {
        return 0;
    }
    let (_, volume) = group.lvs.get(number);
    extents(volume) * group.extent_size
}

// The extents of a volume: its last segment ends there, since they follow each other.
fn extents(volume: &Lv) -> u64
    requires follow { Follow 0 volume.now.segments }
    requires small { LvIsSmall volume.now }
    ensures { result ≡ extents_of volume.now }
{
    match volume.segments.as_slice().last() {
        None => 0,
        Some(last) => last.start + last.count,
    }
}
