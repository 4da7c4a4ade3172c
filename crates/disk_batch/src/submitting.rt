//! Operations that are submitted one after another.
ghost use Rattle.std.specs.Prelude.{◌≡◌, ◌≤◌, ◌<◌, ◌+◌, ℕ, [], length, map, sum_by, vec_len, vec_capacity, All};
ghost use Rattle.disk_model.specs.Steps.{Flushing};
ghost use Rattle.disk_batch.specs.Fits.{buffer_of};
ghost use Rattle.disk_batch.specs.Rest.{rest_of};
ghost use Rattle.disk_batch.specs.Submits.{SubmitsFirst, SubmitsLast, SubmitsWorks};
ghost use Rattle.disk_batch.specs.Writes.{BlockNext, LieIn, block_size, write_work, span_count};

use crate::rest::Rest;
use disk_model::{Op, Shelf};
use sector_base::{Sectors, Span};

/// Submits the writes in their order, and puts their tags into the list.
pub fn submit_writes<S: Shelf>(list: Vec<(Span, Sectors)>, tags: &mut Vec<u64>, shelf: &mut S)
    requires empty { tags.old.items ≡ [] }
    requires room { length list.items ≤ vec_capacity tags.old }
    requires lie { LieIn (S.state shelf.old).sizes list.items }
    requires ops { length list.items ≤ (S.state shelf.old).spare_ops }
    requires sectors { sum_by span_count list.items ≤ (S.state shelf.old).spare_sectors }
    ensures submits { SubmitsWorks (S.state shelf.old) (map write_work list.items) tags.new.items (S.state shelf.new) }
    ensures capacity { vec_capacity tags.new ≡ vec_capacity tags.old }
{
    let mut rest = list;
    rest.reverse();
    while !rest.is_empty() {
        submit_last(&mut rest, tags, shelf);
    }
}

// Takes the last of the writes off and submits it.
fn submit_last<S: Shelf>(list: &mut Vec<(Span, Sectors)>, tags: &mut Vec<u64>, shelf: &mut S)
    requires some { 0 < length list.old.items }
    requires room { vec_len tags.old < vec_capacity tags.old }
    requires lie { LieIn (S.state shelf.old).sizes list.old.items }
    requires ops { 0 < (S.state shelf.old).spare_ops }
    requires sectors { sum_by span_count list.old.items ≤ (S.state shelf.old).spare_sectors }
    ensures last { SubmitsLast (S.state shelf.old) list.old.items tags.old.items list.new.items tags.new.items (S.state shelf.new) }
    ensures len { vec_len tags.new ≡ vec_len tags.old + 1 }
    ensures capacity { vec_capacity tags.new ≡ vec_capacity tags.old }
{
    if let Some((span, sectors)) = list.pop() {
        let tag = shelf.submit(Op::Write(span, sectors));
        tags.push_reserved(tag);
    }
}

/// Submits the first of the writes that are still to be submitted, and puts its tag behind the others. It is false where
/// there is none. A block is filled into the buffer that the operation brings back.
pub(crate) fn submit_next<S: Shelf>(
    rest: &mut Rest,
    op: Op,
    tags: &mut Vec<u64>,
    shelf: &mut S,
) -> bool
    requires buffer { BlockNext (rest_of rest.old) → length (buffer_of op) ≡ block_size }
    requires room { vec_len tags.old < vec_capacity tags.old }
    requires lie { LieIn (S.state shelf.old).sizes (rest_of rest.old) }
    requires ops { length (rest_of rest.old) ≤ (S.state shelf.old).spare_ops }
    requires sectors { sum_by span_count (rest_of rest.old) ≤ (S.state shelf.old).spare_sectors }
    ensures submits { SubmitsFirst (S.state shelf.old) (rest_of rest.old) tags.old.items result (rest_of rest.new) tags.new.items (S.state shelf.new) }
    ensures capacity { vec_capacity tags.new ≡ vec_capacity tags.old }
{
    match rest.take_first(op) {
        Some((span, sectors)) => {
            let tag = shelf.submit(Op::Write(span, sectors));
            tags.push_reserved(tag);
            true
        }
        None => false,
    }
}

/// Submits a flush of each of these disks, in their order, and puts the tags into the list.
pub fn submit_flushes<S: Shelf>(disks: &[u32], tags: &mut Vec<u64>, shelf: &mut S)
    requires empty { tags.old.items ≡ [] }
    requires room { length disks.now ≤ vec_capacity tags.old }
    requires lie { All (λ pv. pv < length (S.state shelf.old).sizes) disks.now }
    requires ops { length disks.now ≤ (S.state shelf.old).spare_ops }
    ensures submits { SubmitsWorks (S.state shelf.old) (map Flushing disks.now) tags.new.items (S.state shelf.new) }
    ensures capacity { vec_capacity tags.new ≡ vec_capacity tags.old }
{
    for pv in disks {
        let tag = shelf.submit(Op::Flush(*pv));
        tags.push_reserved(tag);
    }
}
