//! Printing the segments of a logical volume.
ghost use Rattle.std.specs.Prelude.{[], ◌∷◌, IfOk, OnErr, flat_map};
ghost use Rattle.conf_text.specs.Entries.{Assign, Many};
ghost use Rattle.conf_text.specs.Sinks.{Prints};
ghost use Rattle.meta_model.specs.declared.segment.SegKind.TheVariants as kinds;
ghost use Rattle.meta_print.specs.Layout.{pair_of, kind_entries, segment_entries, segments_entries};
ghost use Rattle.meta_print.specs.Parts.{stripe_entries, moved_entries};

use crate::names::name_of;
use conf_text::{
    TextSink, begin_list, end_list, list_pair, write_close, write_number, write_numbered_open,
    write_text,
};
use meta_model::{Group, Leg, SegKind, Segment};
use std::alloc::AllocError;

// The sections of the segments, numbered from 1 on.
pub(crate) fn write_segments<S: TextSink>(
    sink: &mut S,
    group: &Group,
    segments: &[Segment],
) -> Result<(), AllocError>
    ensures added { IfOk result (λ _. Prints S.Adds sink.old (segments_entries group.now 1 segments.now) sink.new) }
    ensures failed { OnErr result S.MayFail }
{
    for (at, segment) in segments.iter().enumerate() {
        write_segment(sink, group, at as u64 + 1, segment)?;
    }
    Ok(())
}

fn write_segment<S: TextSink>(
    sink: &mut S,
    group: &Group,
    number: u64,
    segment: &Segment,
) -> Result<(), AllocError>
    ensures added { IfOk result (λ _. Prints S.Adds sink.old (segment_entries group.now number segment.now) sink.new) }
    ensures failed { OnErr result S.MayFail }
{
    write_numbered_open(sink, b"segment", number)?;
    write_number(sink, b"start_extent", segment.start)?;
    write_number(sink, b"extent_count", segment.count)?;
    write_kind(sink, group, &segment.kind)?;
    write_close(sink)
}

fn write_kind<S: TextSink>(sink: &mut S, group: &Group, kind: &SegKind) -> Result<(), AllocError>
    ensures added { IfOk result (λ _. Prints S.Adds sink.old (kind_entries group.now kind.now) sink.new) }
    ensures failed { OnErr result S.MayFail }
{
    match kind {
        SegKind::Striped { stripe, legs } => write_striped(sink, group, *stripe, legs.as_slice()),
        SegKind::Mirror {
            region,
            moved,
            legs,
        } => write_mirror(sink, group, *region, *moved, legs.as_slice()),
    }
}

fn write_striped<S: TextSink>(
    sink: &mut S,
    group: &Group,
    stripe: u64,
    legs: &[Leg],
) -> Result<(), AllocError>
    ensures added { IfOk result (λ _. Prints S.Adds sink.old (kind_entries group.now (kinds.Striped stripe legs.now)) sink.new) }
    ensures failed { OnErr result S.MayFail }
{
    write_text(sink, b"type", b"striped")?;
    write_number(sink, b"stripe_count", legs.len() as u64)?;
    write_stripe(sink, legs.len() as u64, stripe)?;
    write_legs(sink, group, b"stripes", legs)
}

// The size of the stripes, where there are several or it isn't 0.
fn write_stripe<S: TextSink>(sink: &mut S, count: u64, stripe: u64) -> Result<(), AllocError>
    ensures added { IfOk result (λ _. Prints S.Adds sink.old (stripe_entries count stripe) sink.new) }
    ensures failed { OnErr result S.MayFail }
{
    if count > 1 || stripe != 0 {
        write_number(sink, b"stripe_size", stripe)
    } else {
        Ok(())
    }
}

fn write_mirror<S: TextSink>(
    sink: &mut S,
    group: &Group,
    region: u64,
    moved: Option<u64>,
    legs: &[Leg],
) -> Result<(), AllocError>
    ensures added { IfOk result (λ _. Prints S.Adds sink.old (kind_entries group.now (kinds.Mirror region moved legs.now)) sink.new) }
    ensures failed { OnErr result S.MayFail }
{
    write_text(sink, b"type", b"mirror")?;
    write_number(sink, b"mirror_count", legs.len() as u64)?;
    write_number(sink, b"region_size", region)?;
    write_moved(sink, moved)?;
    write_legs(sink, group, b"mirrors", legs)
}

// How many extents were moved, where that is said.
fn write_moved<S: TextSink>(sink: &mut S, moved: Option<u64>) -> Result<(), AllocError>
    ensures added { IfOk result (λ _. Prints S.Adds sink.old (moved_entries moved) sink.new) }
    ensures failed { OnErr result S.MayFail }
{
    match moved {
        Some(extents) => write_number(sink, b"extents_moved", extents),
        None => Ok(()),
    }
}

// A key with the name and the first extent of each leg.
fn write_legs<S: TextSink>(
    sink: &mut S,
    group: &Group,
    key: &[u8],
    legs: &[Leg],
) -> Result<(), AllocError>
    ensures added { IfOk result (λ _. Prints S.Adds sink.old (Assign key.now (Many (flat_map (pair_of group.now) legs.now)) ∷ []) sink.new) }
    ensures failed { OnErr result S.MayFail }
{
    begin_list(sink, key)?;
    for (at, leg) in legs.iter().enumerate() {
        list_pair(sink, at, name_of(group, leg.on), leg.first)?;
    }
    end_list(sink)
}
