//! Parts of a text in blocks, and what is left of each.
ghost use Rattle.std.specs.Prelude.{◌≡◌, ◌≤◌, ◌<◌, ◌+◌, ◌++◌, ◌^◌, drop, flat_map, length, map, take, All, IfOk, OnOk};
ghost use Rattle.disk_batch.specs.Blocks.{in_blocks};
ghost use Rattle.disk_batch.specs.Parts.{IsPartOf, IsSmall, block_parts, end_parts, part_put};
ghost use Rattle.disk_batch.specs.Rest.{CanFollow, rest_of};

use crate::Writes;
use crate::rest::{BLOCK, Rest, filled_buffer};
use sector_base::{Sectors, Span};
use std::alloc::{AllocError, Global};

// So many blocks have buffers of their own.
const BUFFERS: usize = 64;

// The writes of these parts of the text in blocks: those that are submitted first, and those that are still to be then.
pub(crate) fn first_and_rest(
    alloc: Global,
    text: Sectors,
    parts: &[(Span, usize)],
) -> Result<(Writes, Rest), AllocError>
    requires small { All IsSmall parts.now }
    requires parts { All (IsPartOf (length text)) parts.now }
    ensures writes { IfOk result (λ made. made.0 ++ rest_of made.1 ≡ in_blocks (map (part_put text) parts.now)) }
    ensures follow { IfOk result (λ made. CanFollow made.0 (rest_of made.1)) }
{
    let mut blocks = blocks_in(alloc, parts)?;
    let mut ends = ends_in(alloc, &text, parts)?;
    let later = blocks.split_off(blocks.len().min(BUFFERS))?;
    let mut first = filled_blocks(alloc, &text, &blocks)?;
    if later.is_empty() {
        first.append(&mut ends)?;
        return Ok((Writes::from_vec(first), Rest::none(alloc)));
    }
    ends.reverse();
    let rest = Rest {
        text,
        blocks: later,
        at: 0,
        ends,
    };
    Ok((Writes::from_vec(first), rest))
}

// The blocks of the parts, each with the place in the text from which it is filled.
fn blocks_in(alloc: Global, parts: &[(Span, usize)]) -> Result<Vec<(Span, usize)>, AllocError>
    requires { All IsSmall parts.now }
    ensures { IfOk result (λ blocks. blocks.items ≡ flat_map block_parts parts.now) }
{
    let mut blocks = Vec::new(alloc);
    for (span, from) in parts {
        push_blocks(*span, *from, &mut blocks)?;
    }
    Ok(blocks)
}

// Puts the blocks of this part behind the others.
fn push_blocks(span: Span, from: usize, blocks: &mut Vec<(Span, usize)>) -> Result<(), AllocError>
    requires { IsSmall (span, from) }
    ensures { OnOk result (blocks.new.items ≡ blocks.old.items ++ block_parts (span, from)) }
{
    for k in 0..span.count / BLOCK {
        let at = BLOCK * k;
        blocks.push((piece(span, at, BLOCK), from + at as usize))?;
    }
    Ok(())
}

// So many sectors of the span from this one on.
fn piece(span: Span, at: u32, count: u32) -> Span
    requires { span.first + at < 2 ^ 64 }
    ensures { result ≡ record { pv = span.pv; first = span.first + at; count = count } }
{
    Span {
        pv: span.pv,
        first: span.first + u64::from(at),
        count,
    }
}

// The writes of what is left of the parts behind their blocks.
fn ends_in(
    alloc: Global,
    text: &Sectors,
    parts: &[(Span, usize)],
) -> Result<Vec<(Span, Sectors)>, AllocError>
    requires small { All IsSmall parts.now }
    requires parts { All (IsPartOf (length text.now)) parts.now }
    ensures { IfOk result (λ ends. ends.items ≡ map (part_put text.now) (flat_map end_parts parts.now)) }
{
    let mut ends = Vec::new(alloc);
    for (span, from) in parts {
        push_end(alloc, text, *span, *from, &mut ends)?;
    }
    Ok(ends)
}

// Puts that of this part, if there is any, behind the others.
fn push_end(
    alloc: Global,
    text: &Sectors,
    span: Span,
    from: usize,
    ends: &mut Vec<(Span, Sectors)>,
) -> Result<(), AllocError>
    requires small { IsSmall (span, from) }
    requires part { IsPartOf (length text.now) (span, from) }
    ensures { OnOk result (ends.new.items ≡ ends.old.items ++ map (part_put text.now) (end_parts (span, from))) }
{
    let left = span.count % BLOCK;
    if left == 0 {
        return Ok(());
    }
    let at = span.count - left;
    ends.push((
        piece(span, at, left),
        part_of(alloc, text, from + at as usize, left)?,
    ))?;
    Ok(())
}

// The writes of these blocks.
fn filled_blocks(
    alloc: Global,
    text: &Sectors,
    blocks: &[(Span, usize)],
) -> Result<Vec<(Span, Sectors)>, AllocError>
    requires { All (IsPartOf (length text.now)) blocks.now }
    ensures { IfOk result (λ list. list.items ≡ map (part_put text.now) blocks.now) }
{
    let mut list = Vec::with_capacity(alloc, blocks.len())?;
    for (span, from) in blocks {
        list.push((*span, part_of(alloc, text, *from, span.count)?))?;
    }
    Ok(list)
}

// So many sectors of the text from this place on.
fn part_of(alloc: Global, text: &Sectors, from: usize, count: u32) -> Result<Sectors, AllocError>
    requires { from + count ≤ length text.now }
    ensures { IfOk result (λ sectors. sectors ≡ take count (drop from text.now)) }
{
    let buffer = Sectors::zeroed(alloc, count)?;
    Ok(filled_buffer(text, from, buffer))
}
