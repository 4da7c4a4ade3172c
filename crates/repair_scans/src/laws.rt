//! What holds of the images on the way of a repair: each function does nothing, and its clauses are proved.
ghost use Rattle.repair_scans.specs.Laws.{RepairKeepsPlaces, RepairKeepsVersion, RepairedScans, RepairsScan, ScansFindStraysApart};

use vg_scan::one_reading;

/// A scan of an image on the way of a repair finds the version of the group that was found before, with the same text and
/// with each of its physical volumes. What a scan finds to be stale or old is on no stray, as a repair asks. Once all is
/// written, a scan finds what the repair hands on.
pub fn repair_scans()
    ensures on_the_way { RepairsScan }
    ensures apart { ScansFindStraysApart }
    ensures at_the_end { RepairedScans }
{
    one_reading();
}

/// A repair writes no primary place of a volume of the group that was found: in every image on its way each has what it has
/// in the base.
pub fn repair_keeps_places()
    ensures { RepairKeepsPlaces }
{}

/// What is found once a repair is done has the version that was found.
pub fn repair_keeps_version()
    ensures { RepairKeepsVersion }
{}
