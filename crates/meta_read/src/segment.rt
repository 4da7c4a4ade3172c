//! The segment that a section stands for.
ghost use Rattle.std.specs.Prelude.{false, nat_lt, codes, if◌then◌else◌};
ghost use Rattle.conf_text.specs.Items.{items};
ghost use Rattle.meta_model.specs.Keys.{only, required, optional, number};
ghost use Rattle.meta_model.specs.Standing.{striped, mirror, kind_of, segment_of};
ghost use Rattle.meta_model.specs.declared.refusal.GroupRefusal.TheVariants.{UnknownSegment};
ghost use Rattle.meta_read.specs.Reading.{Gives};

use crate::keys::{number_if_any, number_or, required_number, required_text};
use crate::legs::read_legs;
use crate::places::Places;
use crate::refusals::unknown_segment;
use conf_text::Section;
use meta_model::{GroupRefusal, SegKind, Segment};
use std::alloc::Global;

/// The segment that the section stands for.
pub(crate) fn read_segment(
    alloc: Global,
    places: &Places<'_>,
    section: &Section<'_>,
) -> Result<Segment, GroupRefusal>
    ensures { Gives (segment_of places.now (items section.now)) result }
{
    let start = required_number(alloc, section, b"start_extent")?;
    let count = required_number(alloc, section, b"extent_count")?;
    let type_name = required_text(alloc, section, b"type")?;
    let kind = read_kind(alloc, places, type_name, section)?;
    Ok(Segment { start, count, kind })
}

// The kind of a segment with this type.
fn read_kind(
    alloc: Global,
    places: &Places<'_>,
    type_name: &[u8],
    section: &Section<'_>,
) -> Result<SegKind, GroupRefusal>
    ensures { Gives (kind_of places.now type_name.now (items section.now)) result }
{
    if type_name == b"striped".as_slice() {
        read_striped(alloc, places, section)
    } else if type_name == b"mirror".as_slice() {
        read_mirror(alloc, places, section)
    } else {
        Err(unknown_segment(alloc, type_name))
    }
}

fn read_striped(
    alloc: Global,
    places: &Places<'_>,
    section: &Section<'_>,
) -> Result<SegKind, GroupRefusal>
    ensures { Gives (striped places.now (items section.now)) result }
{
    let said = required_number(alloc, section, b"stripe_count")?;
    let legs = read_legs(alloc, places, section, b"stripes", said)?;
    let stripe = read_stripe(alloc, section, said)?;
    Ok(SegKind::Striped { stripe, legs })
}

// The stripe size, which several stripes need.
fn read_stripe(alloc: Global, section: &Section<'_>, stripes: u64) -> Result<u64, GroupRefusal>
    ensures { Gives (if nat_lt 1 stripes then required number (codes "stripe_size") (items section.now) else optional number 0 (codes "stripe_size") (items section.now)) result }
{
    if stripes > 1 {
        required_number(alloc, section, b"stripe_size")
    } else {
        number_or(alloc, section, b"stripe_size", 0)
    }
}

fn read_mirror(
    alloc: Global,
    places: &Places<'_>,
    section: &Section<'_>,
) -> Result<SegKind, GroupRefusal>
    ensures { Gives (mirror places.now (items section.now)) result }
{
    let said = required_number(alloc, section, b"mirror_count")?;
    let legs = read_legs(alloc, places, section, b"mirrors", said)?;
    let region = number_or(alloc, section, b"region_size", 1_024)?;
    let moved = number_if_any(alloc, section, b"extents_moved")?;
    no_log(alloc, section)?;
    Ok(SegKind::Mirror {
        region,
        moved,
        legs,
    })
}

// A mirror has no log.
fn no_log(alloc: Global, section: &Section<'_>) -> Result<(), GroupRefusal>
    ensures { Gives (only (λ _. false) (UnknownSegment (codes "mirror_log")) (codes "mirror_log") (items section.now)) result }
{
    match section.get(b"mirror_log") {
        Some(_) => Err(unknown_segment(alloc, b"mirror_log")),
        None => Ok(()),
    }
}
