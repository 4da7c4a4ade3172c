//! The report of pvck.
ghost use Rattle.std.specs.Prelude.{◌≡◌, ◌≤◌, ◌<◌, ◌^◌, ℕ, List, [], length, slice_index_or, IfOk, IfSome, MatchResult};
ghost use Rattle.disk_model.specs.Steps.{now_after};
ghost use Rattle.disk_model.specs.Faults.{HasSameFaults};
ghost use Rattle.disk_model.specs.Idle.{IsIdleAgain};
ghost use Rattle.disk_contents.specs.Causes.{IsReadCause};
ghost use Rattle.disk_contents.specs.Reads.{ReadsAllOf, ReadsFirstOf};
ghost use Rattle.lvm_report.specs.Report.{IsReport};

use crate::report::report;
use disk_contents::{ReadRefusal, find_pv};
use disk_model::Shelf;
use sector_base::Text;
use std::alloc::Global;

/// Reads lvm2's sectors of the disk, and answers the report on what stands there, one item a line. Each line ends with
/// a line feed.
///
/// The lines come in this order: `label SECTOR`, `id ID`, `size BYTES`, a line `data OFFSET SIZE` for each data area, a
/// line `area OFFSET SIZE` for each metadata area, and `extension VERSION FLAGS`. Under a metadata area's line stand
/// `committed OFFSET SIZE SUM` and `precommitted OFFSET SIZE SUM` where its header names such texts. What isn't read is
/// answered in its place by a line `refused KIND VALUES`, after which a report ends, but for that of an area.
pub fn pvck<S: Shelf>(alloc: Global, shelf: &mut S, number: u32) -> Result<Text, ReadRefusal>
    requires disk { number < length (S.state shelf.old).sizes }
    requires least { 8 ≤ slice_index_or (S.state shelf.old).sizes number 0 }
    requires most { slice_index_or (S.state shelf.old).sizes number 0 ≤ 2 ^ 40 }
    requires idle { (S.state shelf.old).in_flight ≡ [] }

    // The text is the report on the disk's sectors, which have no other.
    ensures report { IfOk result (λ text. IfSome (S.state shelf.old).told (λ told.
        IsReport (now_after told.opened told.steps number) (slice_index_or (S.state shelf.old).sizes number 0) text)) }
    ensures one { IfOk result (λ text. IfSome (S.state shelf.old).told (λ told.
        (other : List ℕ) → IsReport (now_after told.opened told.steps number) (slice_index_or (S.state shelf.old).sizes number 0) other → other ≡ text)) }

    // It submits reads alone: of the label's sectors, and then of the header sector of each metadata area, each once.
    ensures reads { MatchResult result
        (λ _. ReadsAllOf number (slice_index_or (S.state shelf.old).sizes number 0) (S.state shelf.old) (S.state shelf.new))
        (λ _. ReadsFirstOf number (slice_index_or (S.state shelf.old).sizes number 0) (S.state shelf.old) (S.state shelf.new)) }
    ensures again { IsIdleAgain (S.state shelf.old) (S.state shelf.new) }

    // A read that failed was the last step, and nothing else failed.
    ensures cause { MatchResult result (λ _. HasSameFaults (S.state shelf.old) (S.state shelf.new)) (IsReadCause number (S.state shelf.old) (S.state shelf.new)) }
{
    let found = find_pv(alloc, shelf, number)?;
    Ok(report(alloc, &found)?)
}
