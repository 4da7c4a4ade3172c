//! Laws of versions that commands make: each function does nothing, and its clauses are proved.
ghost use Rattle.pending_versions.specs.Laws.{BirthsLieBeside, ChangesRemake, EntriesKeepBirths, EntriesKeepPending, MachinesStay};
ghost use Rattle.pending_versions.specs.Laws.{OpeningIsShown, PendingShowsNext, StepsKeepMachines, StepsKeepPending, StepsKeepSettled};
ghost use Rattle.pending_versions.specs.Laws.{TakingShows, TakingTracks, TrackedIsConsistent};

use volume_history::parts_make_consistent;
use world_places::{entries_keep, places_begin, places_hold};

/// A command makes its version from whatever machine of the one before it, the machine stays one of the version in force, and what
/// is created lies beside that.
pub fn versions_are_remade()
    ensures remade { ChangesRemake }
    ensures opening { OpeningIsShown }
    ensures machines { MachinesStay }
    ensures steps { StepsKeepMachines }
    ensures beside { BirthsLieBeside }
{}

/// What entries and steps leave of the command that is pending.
pub fn pending_commands_stay()
    ensures entries { EntriesKeepPending }
    ensures births { EntriesKeepBirths }
    ensures steps { StepsKeepPending }
    ensures settled { StepsKeepSettled }
{}

/// While a command is pending its version shows a history beside the one in force, so now is consistent.
pub fn pending_commands_show()
    ensures next { PendingShowsNext }
    ensures now { TrackedIsConsistent }
{
    parts_make_consistent();
    places_hold();
}

/// Where the command makes its version, each sector of that is tracked at its place, and the machine is what a read gives of it.
pub fn commits_take_place()
    ensures tracked { TakingTracks }
    ensures shown { TakingShows }
{
    entries_keep();
    places_begin();
}
