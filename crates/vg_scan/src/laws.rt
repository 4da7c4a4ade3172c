//! Laws of scans.
ghost use Rattle.std.specs.Prelude.{◌≡◌, ℕ, List};
ghost use Rattle.std.specs.FinSet as set;
ghost use Rattle.std.specs.Ordering.{nat_cmp};
ghost use Rattle.disk_model.specs.Steps.{Image};
ghost use Rattle.scan_rules.specs.Decision.{Reading};
ghost use Rattle.vg_found.specs.declared.disk.Disk.{Disk};
ghost use Rattle.vg_scan.specs.Readings.{AreReadings};

use conf_text::one_outcome;
use disk_contents::one_finding;

/// What stands on disks and how they read is one, so that a scan of an image has one answer.
pub fn one_reading()
    ensures disks { (image : Image) (sizes : List ℕ) (unread : set.FinSet nat_cmp) (ds es : List Disk) (xs ys : List Reading)
        → AreReadings image sizes unread ds xs → AreReadings image sizes unread es ys → ds ≡ es }
    ensures readings { (image : Image) (sizes : List ℕ) (unread : set.FinSet nat_cmp) (ds es : List Disk) (xs ys : List Reading)
        → AreReadings image sizes unread ds xs → AreReadings image sizes unread es ys → xs ≡ ys }
{
    one_outcome();
    one_finding();
}
