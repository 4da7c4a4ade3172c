//! What some of the disks tell once a commit is done.
ghost use Rattle.line_history.specs.EachSet.{DoneSetsAgree, EachMemberFinds, EachSetFinds, EachSetRemoved, MadeMembersAgree};

use repair_scans::repair_scans;
use vg_scan::one_reading;
use volume_history::scans_are_one;

/// Once a commit is done, and the disks are cleared that the group lets go, a scan of any of the disks, the others taken as
/// empty, finds no group or the one that was committed, and never an older version of it; and none at all once a group is
/// removed. A scan of any disks of the group that was committed does so too while others are cleared.
pub fn each_set_finds()
    ensures finds { EachSetFinds }
    ensures members { EachMemberFinds }
    ensures removed { EachSetRemoved }
{
    one_reading();
}

/// So at the end of a run whose line has committed a group or removed it, in every image that a crash may leave, no set of the
/// disks finds an older version of the group than all of them do; and no set of the disks of the group where those couldn't be
/// cleared that it lets go.
pub fn done_sets_agree()
    ensures done { DoneSetsAgree }
    ensures made { MadeMembersAgree }
{
    each_set_finds();
    repair_scans();
    scans_are_one();
}
