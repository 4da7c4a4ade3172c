//! On which disks something is stale.
ghost use Rattle.std.specs.Prelude.{◌≡◌, ◌<◌, ℕ, All};
ghost use Rattle.std.specs.FinSet as set;
ghost use Rattle.std.specs.List.{list_any};
ghost use Rattle.vg_found.specs.StaleAreas.{is_on};

use sector_base::PvSet;

/// The disks on which one of these areas is, which are stale.
pub fn stale_disks(stale: &[(u32, u32)]) -> PvSet
    requires few { All (λ area. area.0 < 64) stale.now }
    ensures { (pv : ℕ) → set.contains result pv ≡ list_any (is_on pv) stale.now }
{
    let mut disks = PvSet::new();
    for (disk, _) in stale {
        disks.insert(*disk);
    }
    disks
}
