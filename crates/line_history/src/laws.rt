//! Laws of runs of one line: each function does nothing, and its clauses are proved.
ghost use Rattle.line_history.specs.Histories.{ClearsHaveHistories, EndsHaveHistories, LinesHaveHistories, LooksHaveHistories, ReportsHaveHistories};
ghost use Rattle.line_history.specs.Laws.{CommitChangesVolumes, PlacesUntouched};

use repair_scans::repair_scans;

/// The version that a line commits has the volumes, and the group the name, that its command makes of those that were found.
pub fn commit_changes_volumes()
    ensures { CommitChangesVolumes }
{}

/// Where every image that a crash may leave has at each primary place of the group what an image has in which it was found,
/// the places of its volumes are untouched.
pub fn places_untouched()
    ensures { PlacesUntouched }
{}

/// The journal and the answers of a run of one line are those of one legal history of plain volumes, and stopped at any
/// moment since the disks were handed in, scanning them finds one whole version of the group with its volumes' contents.
pub fn line_histories()
    ensures lines { LinesHaveHistories }
    ensures clears { ClearsHaveHistories }
    ensures ends { EndsHaveHistories }
    ensures looks { LooksHaveHistories }
    ensures reports { ReportsHaveHistories }
{
    repair_scans();
}
