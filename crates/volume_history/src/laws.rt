//! Laws of histories: each function does nothing, and its clauses are proved.
ghost use Rattle.volume_history.specs.Laws.{AnswersKeep, BasesStay, HistoriesGrow, OksMoveBases, PastStays, ReplayStays, SourcesAreCandidates};
ghost use Rattle.volume_history.specs.Laws.{PartsMakeConsistent, QuietIsConsistent, ScansAreOne, VolumesAreViewed};
ghost use Rattle.volume_history.specs.Laws.{DoneCommit, DoneCreate, DoneLine, FailedCreate, FencedCommit, GivenUpCommit, MadeCommit, NoLine, UndoneLine};

use vg_scan::one_reading;
use volume_view::places_stand;

/// What later steps and entries leave as it was and keep legal, what moves a base, and what a sector may hold.
pub fn histories_stay()
    ensures past { PastStays }
    ensures replay { ReplayStays }
    ensures grow { HistoriesGrow }
    ensures bases { BasesStay }
    ensures oks { OksMoveBases }
    ensures sources { SourcesAreCandidates }
    ensures answers { AnswersKeep }
{}

/// Now is consistent where scans of every image find the version in force or that of the pending command, and each sector of
/// both has its place.
pub fn parts_make_consistent()
    ensures { PartsMakeConsistent }
{}

/// A moment is consistent where the volumes are as they were, a scan of every image finds the version in force or that of
/// the pending command, and no place of a volume is touched.
pub fn quiet_histories()
    ensures { QuietIsConsistent }
{}

/// What a scan of an image finds is one.
pub fn scans_are_one()
    ensures { ScansAreOne }
{
    one_reading();
}

/// The values of the volumes of an accepted group are those that its view has.
pub fn volumes_are_viewed()
    ensures { VolumesAreViewed }
{
    places_stand();
}

/// The histories of a run that ended before its line, and of a single command that leaves the volumes as they are, by how it
/// ends.
pub fn single_commands()
    ensures no_line { NoLine }
    ensures undone { UndoneLine }
    ensures line { DoneLine }
    ensures done { DoneCommit }
    ensures made { MadeCommit }
    ensures given_up { GivenUpCommit }
    ensures fenced { FencedCommit }
    ensures created { DoneCreate }
    ensures failed { FailedCreate }
{}
