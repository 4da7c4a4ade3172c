//! The writes of a batch that are still to be submitted.
ghost use Rattle.std.specs.Prelude.{◌≡◌, ◌≤◌, ◌<◌, ◌+◌, ◌-◌, ◌^◌, [], drop, length, min, sum_by, take, vec_len, All};
ghost use Rattle.disk_batch.specs.Fits.{buffer_of};
ghost use Rattle.disk_batch.specs.Parts.{IsBlockOf, IsEnd};
ghost use Rattle.disk_batch.specs.Writes.{block_size};

use crate::batch::count_sectors;
use disk_model::Op;
use sector_base::{Sectors, Span};
use std::alloc::Global;

// How many sectors a block has.
pub(crate) const BLOCK: u32 = 128;

// Blocks, each with the place in the text from which it is filled, and then writes with sectors of their own, the last of them
// first.
#[derive(Drop)]
pub(crate) struct Rest {
    pub(crate) text: Sectors,
    pub(crate) blocks: Vec<(Span, usize)>,
    // So many of the blocks were submitted.
    pub(crate) at: usize,
    pub(crate) ends: Vec<(Span, Sectors)>,
    ghost some: { at ≤ vec_len blocks },
    ghost parts: { All (IsBlockOf (length text)) blocks.items },
    ghost others: { All IsEnd ends.items },
}

impl Rest {
    ghost use Rattle.disk_batch.specs.Rest.{TakesFirst, rest_of};
    ghost use Rattle.disk_batch.specs.Writes.{BlockNext, span_count};

    // No write is still to be submitted.
    pub(crate) fn none(alloc: Global) -> Self
        ensures { rest_of result ≡ [] }
    {
        Rest {
            text: Sectors::from_vec(Vec::new(alloc)),
            blocks: Vec::new(alloc),
            at: 0,
            ends: Vec::new(alloc),
        }
    }

    // How many they are, and how many sectors they have. A number past 2^64 - 1 is given as that.
    pub(crate) fn needs(&self) -> (u64, u64)
        ensures ops { result.0 ≡ min (length (rest_of self.now)) (2 ^ 64 - 1) }
        ensures sectors { result.1 ≡ min (sum_by span_count (rest_of self.now)) (2 ^ 64 - 1) }
    {
        let blocks = (self.blocks.len() - self.at) as u64;
        let ends = self.ends.len() as u64;
        (
            blocks.saturating_add(ends),
            blocks
                .saturating_mul(u64::from(BLOCK))
                .saturating_add(count_sectors(&self.ends)),
        )
    }

    // Takes the first of them off. A block is filled into the buffer that the operation brings back.
    pub(crate) fn take_first(&mut self, op: Op) -> Option<(Span, Sectors)>
        requires { BlockNext (rest_of self.old) → length (buffer_of op) ≡ block_size }
        ensures { TakesFirst (rest_of self.old) result (rest_of self.new) }
    {
        if self.at == self.blocks.len() {
            return self.ends.pop();
        }
        let (span, from) = self.blocks[self.at];
        self.at += 1;
        Some((span, filled(&self.text, from, op)))
    }
}

// The block of the text from this place on, in the buffer that the operation brings back.
fn filled(text: &Sectors, from: usize, op: Op) -> Sectors
    requires buffer { length (buffer_of op) ≡ block_size }
    requires part { from + block_size ≤ length text.now }
    ensures { result ≡ take block_size (drop from text.now) }
{
    match op {
        Op::Read(_, buffer) => filled_buffer(text, from, buffer),
        Op::Write(_, buffer) => filled_buffer(text, from, buffer),
        Op::Flush(_) => unreachable!(),
    }
}

// The buffer, filled with as many sectors of the text from this place on.
pub(crate) fn filled_buffer(text: &Sectors, from: usize, buffer: Sectors) -> Sectors
    requires { from + length buffer ≤ length text.now }
    ensures { result ≡ take (length buffer) (drop from text.now) }
{
    let mut sectors = buffer;
    sectors.fill_from(text, from);
    sectors
}
