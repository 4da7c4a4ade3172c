//! The trait of a row of disks, as every layer above sees it.
ghost use Rattle.std.specs.Prelude.{◌≡◌, ◌≤◌, ◌<◌, ℕ, List, [], length, slice_index_or, OnErr, OnOk, MatchOption, IsNone, ◌↔◌};
ghost use Rattle.disk_model.specs.Operations.{Lies, sectors_of};
ghost use Rattle.disk_model.specs.State.{State, IsLawful};
ghost use Rattle.disk_model.specs.Calls.{Completes, MakesReady, Reaps, Reserves, Submits};

use crate::{Done, Op};
use std::alloc::AllocError;

/// A row of disks, numbered from 0, whose operations are queued and complete in any order.
///
/// Contracts see a shelf as its `state`. Where it tells the images at opening and the record of all steps since then,
/// the clauses on content hold.
pub trait Shelf {
    ghost state: { Self → State };

    /// How many disks there are.
    fn count(&self) -> u32
        ensures { result ≡ length (state self.now).sizes };

    /// How many sectors the disk has.
    fn sectors(&self, pv: u32) -> u64
        requires { pv < length (state self.now).sizes }
        ensures { result ≡ slice_index_or (state self.now).sizes pv 0 };

    /// How many operations of the disk have failed.
    fn faults(&self, pv: u32) -> u64
        requires { pv < length (state self.now).sizes }
        ensures { result ≡ (state self.now).faults pv };

    /// How many submissions and completions there were since the shelf was made.
    fn steps(&self) -> u64
        ensures { result ≡ (state self.now).steps };

    /// Makes at least so many operations and sectors spare. Only memory can be wanting, and for more than 2^62
    /// operations in the shelf's life it is.
    fn reserve(&mut self, ops: u64, sectors: u64) -> Result<(), AllocError>
        ensures ok { OnOk result (Reserves (state self.old) ops sectors (state self.new)) }
        ensures err { OnErr result (state self.new ≡ state self.old) };

    /// Submits the operation, for which one operation and its sectors must be spare, and answers its tag, which no
    /// earlier operation had. It is never refused.
    fn submit(&mut self, op: Op) -> u64
        requires lies { Lies (state self.old).sizes op }
        requires ops { 0 < (state self.old).spare_ops }
        requires sectors { sectors_of op ≤ (state self.old).spare_sectors }
        ensures { Submits (state self.old) op result (state self.new) };

    /// Completes an operation that is ready; `None` where none is. It looks first which others have become ready since the last call.
    fn reap(&mut self) -> Option<Done>
        ensures { Reaps (state self.old) result (state self.new) };

    /// Waits until an operation completes; `None` where none is in flight.
    fn settle(&mut self) -> Option<Done>
        ensures none { IsNone result ↔ ((state self.old).in_flight ≡ []) }
        ensures cases { MatchOption result (MakesReady (state self.old) (state self.new)) (λ done. Completes (state self.old) done (state self.new)) };

    ghost lawful: { (shelf : Self) → IsLawful (state shelf) };
}
