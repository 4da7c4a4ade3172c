//! When a session completes: the function does nothing, and its clause is proved.
ghost use Rattle.lvm_run.specs.Completeness.{Completes};

use disk_model::Shelf;

/// A session whose source holds a script and whose disks are ready, in which nothing fails and no line is refused, ends with status 0, and
/// each line of its script is done; or memory was wanting, and its status is 2.
pub fn sessions_complete<S: Shelf>(_shelf: &S)
    ensures { Completes S.state }
{}
