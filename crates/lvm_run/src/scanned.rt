//! How a run ends whose disks aren't taken as the scan finds them.
ghost use Rattle.std.specs.Prelude.{◌≡◌};
ghost use Rattle.lvm_run.specs.ScanEndings.{IsEndingOf, partial_ending};

use crate::disks_refusal::DisksRefusal;
use crate::ending::Ending;
use vg_found::{NotWhole, ScanRefused};
use vg_scan::ScanStopped;

/// The ending where the scan was refused.
pub fn scan_ending(stopped: ScanStopped) -> Ending
    ensures { IsEndingOf stopped.why stopped.unread result }
{
    match stopped.why {
        scan_rules::ScanRefusal::NoMemory => Ending::NoMemory,
        why => Ending::ScanRefused {
            refusal: DisksRefusal::Disks(why),
            whole: stopped.unread.is_empty(),
        },
    }
}

/// The ending where what was found isn't whole.
pub fn partial_ending(refused: ScanRefused) -> Ending
    ensures { result ≡ partial_ending refused.found refused.why }
{
    let ScanRefused { found, why } = refused;
    match why {
        NotWhole::ReadFailed(pv) => Ending::ScanReadFailed(pv),
        NotWhole::Partial => Ending::ScanRefused {
            refusal: DisksRefusal::Partial(found.missing),
            whole: true,
        },
    }
}
