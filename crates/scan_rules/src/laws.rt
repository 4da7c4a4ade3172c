//! Laws of scans: each function does nothing, and its clauses are proved.
ghost use Rattle.scan_rules.specs.Laws.{ScansFindNew, ScansFindOld, ShapeIsOfHeaders, SilentDisksChangeNothing};
ghost use Rattle.scan_rules.specs.Laws.{MissingIsExact, StaleIsExact, StraysAreExact};

/// While a commit publishes, a scan finds the new version where a listed volume holds it, else the old one.
pub fn scans_find_versions()
    ensures new { ScansFindNew }
    ensures old { ScansFindOld }
{}

/// Whether the volumes of a group lie well on their disks is told by the disks' headers alone.
pub fn shape_is_of_headers()
    ensures { ShapeIsOfHeaders }
{}

/// Of a group that was found, the stale areas are those of its physical volumes that give anything else than its copy
/// and aren't ignored; the strays are the disks that it doesn't list and that hold something; and its missing physical
/// volumes are those that were away or are on no disk.
pub fn scans_tell_what_to_repair()
    ensures stale { StaleIsExact }
    ensures strays { StraysAreExact }
    ensures missing { MissingIsExact }
{}

/// A disk more at the end, on which no physical volume was found, changes nothing of the answer.
pub fn silent_disks_change_nothing()
    ensures { SilentDisksChangeNothing }
{}
