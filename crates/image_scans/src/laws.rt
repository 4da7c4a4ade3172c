//! What holds of the images on the way of a line: each function does nothing, and its clauses are proved.
ghost use Rattle.image_scans.specs.Laws.{BaseScans, ClearsKeepPlaces, ClearsScan, ImagesScan, LastScans, LineZeroesLie, PlacesAreKept, PlacesAreOutside, RemovalScans, RemovedScans, UnpublishedScans, ViewIsKept, ZeroesAreKept, ZeroesKeepPlaces, ZeroesScan};

/// A scan of an image on the way of a line finds the version of the group that was found before or the new one: the former
/// until the last batch of its commit is begun, and once all is written the new one. Where the line makes a new physical
/// volume it finds the version that was found, on the way with that disk left out, and at the end without leaving it out.
pub fn change_scans()
    ensures base { BaseScans }
    ensures on_the_way { ImagesScan }
    ensures unpublished { UnpublishedScans }
    ensures at_the_end { LastScans }
{}

/// What a line writes covers no primary place of a volume of the group that was found, so that in every image on its way
/// its visible volumes have the contents that they have in the base.
pub fn change_keeps_view()
    ensures outside { PlacesAreOutside }
    ensures kept { PlacesAreKept }
    ensures view { ViewIsKept }
{}

/// What a line zeroes before its commit lies in extents that no volume of the group has: in every image on the way of the
/// zeros a scan finds the same as before, and volumes have their contents; and on the way of the commit the zeros stay.
pub fn change_zeroes()
    ensures lie { LineZeroesLie }
    ensures scan { ZeroesScan }
    ensures places { ZeroesKeepPlaces }
    ensures kept { ZeroesAreKept }
{}

/// While disks are cleared behind a commit a scan finds the new version. While a vgremove clears the disks of the group it finds
/// the version that was found or none, and once all is written none.
/// Volumes keep their contents.
pub fn change_clears()
    ensures commit { ClearsScan }
    ensures removal { RemovalScans }
    ensures removed { RemovedScans }
    ensures places { ClearsKeepPlaces }
{}
