//! The zeros that a change writes before its commit.
ghost use Rattle.std.specs.Prelude.{◌≡◌, ◌<◌, ℕ, List, map, All, IfOk};
ghost use Rattle.disk_batch.specs.Batches.{writes_of};
ghost use Rattle.disk_batch.specs.InTurn.{CanRun};
ghost use Rattle.change_batches.specs.Batches.{zero_batches, zero_put};
ghost use Rattle.change_batches.specs.Sound.{ZeroesLieOn};

use crate::batches::push_batch;
use disk_batch::Batch;
use group_plan::Change;
use sector_base::{Sectors, Span};
use std::alloc::{AllocError, Global};

/// The batch of the zeros that the change writes before its commit, where it writes any. Only memory can be wanting.
pub fn zeros_of(alloc: Global, change: &Change) -> Result<Vec<Batch>, AllocError>
    requires { All (λ span. span.pv < 64) change.now.zero }
    ensures writes { IfOk result (λ batches. map writes_of batches.items ≡ zero_batches change.now) }
    ensures can_run { (sizes : List ℕ) → ZeroesLieOn sizes change.now.zero → IfOk result (λ batches. All (CanRun sizes) batches.items) }
{
    let mut batches = Vec::new(alloc);
    push_batch(
        alloc,
        zero_writes(alloc, change.zero.as_slice())?,
        &mut batches,
    )?;
    Ok(batches)
}

// The writes of zeros to these spans.
fn zero_writes(alloc: Global, spans: &[Span]) -> Result<Vec<(Span, Sectors)>, AllocError>
    ensures { IfOk result (λ list. list.items ≡ map zero_put spans.now) }
{
    let mut list = Vec::with_capacity(alloc, spans.len())?;
    for span in spans {
        list.push((*span, Sectors::zeroed(alloc, span.count)?))?;
    }
    Ok(list)
}
