//! The keys that are passed over.
ghost use Rattle.std.specs.Prelude.{◌≡◌, ◌∷◌, [], ◌++◌, OnOk, IfOk, map, flat_map, codes, false, nat_eq, if◌then◌else◌};
ghost use Rattle.std.specs.Option.{option_map_or, option_and_then};
ghost use Rattle.std.specs.Cmp.Lexicographic.{pointwise};
ghost use Rattle.lvm_name.specs.Names.{is_top_key};
ghost use Rattle.conf_text.specs.Items.{items, lookup};
ghost use Rattle.conf_text.specs.Sections.{item_view};
ghost use Rattle.meta_model.specs.Keys.{text};
ghost use Rattle.meta_model.specs.PassedOver.{path_in, unless_known, in_pv, in_segment, in_lv, in_volumes, in_group};
ghost use Rattle.meta_read.specs.Reading.{as_bytes};
ghost use Rattle.meta_read.specs.Unknowns.{unknown_of};

use crate::sections::is_segment;
use crate::words::has_word;
use conf_text::{Item, Section};
use sector_base::{ItemList, Text};
use std::alloc::{AllocError, Global};

/// The paths of the keys that were passed over, in the order of the text. Contracts see the list of them.
pub type Unknown = ItemList<Text>;

// The keys that stand beside a group.
const TOP_KEYS: [&[u8]; 5] = [
    b"contents",
    b"version",
    b"description",
    b"creation_host",
    b"creation_time",
];

const GROUP_KEYS: [&[u8]; 11] = [
    b"id",
    b"seqno",
    b"extent_size",
    b"max_lv",
    b"max_pv",
    b"status",
    b"format",
    b"system_id",
    b"lock_type",
    b"flags",
    b"metadata_copies",
];

const PV_KEYS: [&[u8]; 7] = [
    b"id",
    b"pe_start",
    b"pe_count",
    b"status",
    b"flags",
    b"device",
    b"dev_size",
];

const LV_KEYS: [&[u8]; 6] = [
    b"id",
    b"status",
    b"segment_count",
    b"flags",
    b"creation_time",
    b"creation_host",
];

const STRIPED_KEYS: [&[u8]; 6] = [
    b"start_extent",
    b"extent_count",
    b"type",
    b"stripe_count",
    b"stripes",
    b"stripe_size",
];

const MIRROR_KEYS: [&[u8]; 8] = [
    b"start_extent",
    b"extent_count",
    b"type",
    b"mirror_count",
    b"mirrors",
    b"region_size",
    b"extents_moved",
    b"mirror_log",
];

/// The paths of what nothing stands for, in the order of the text.
pub(crate) fn unknown_in(alloc: Global, top: &Section<'_>) -> Result<Unknown, AllocError>
    ensures { IfOk result (λ unknown. unknown ≡ unknown_of (items top.now)) }
{
    let mut unknown = Vec::new(alloc);
    let mut next = top.split_first();
    while let Some((name, item, after)) = next {
        match item {
            Item::Section(body) => pass_group(alloc, &mut unknown, name, &body)?,
            _ => pass_top_key(alloc, &mut unknown, name)?,
        }
        next = after.split_first();
    }
    Ok(ItemList::from_vec(unknown))
}

// A key of the top level.
fn pass_top_key(alloc: Global, unknown: &mut Vec<Text>, name: &[u8]) -> Result<(), AllocError>
    ensures { OnOk result (unknown.new.items ≡ unknown.old.items ++ (if is_top_key name.now then [] else name.now ∷ [])) }
{
    if !has_word(&TOP_KEYS, name) {
        unknown.push(Text::from_vec(Vec::from_slice(alloc, name)?))?;
    }
    Ok(())
}

// What is unknown in a group.
fn pass_group(
    alloc: Global,
    unknown: &mut Vec<Text>,
    path: &[u8],
    section: &Section<'_>,
) -> Result<(), AllocError>
    ensures { OnOk result (unknown.new.items ≡ unknown.old.items ++ in_group path.now (items section.now)) }
{
    let mut next = section.split_first();
    while let Some((name, item, after)) = next {
        pass_group_item(alloc, unknown, path, name, &item)?;
        next = after.split_first();
    }
    Ok(())
}

fn pass_group_item(
    alloc: Global,
    unknown: &mut Vec<Text>,
    path: &[u8],
    name: &[u8],
    item: &Item<'_>,
) -> Result<(), AllocError>
    ensures { OnOk result (unknown.new.items ≡ unknown.old.items ++ in_group path.now ((name.now, item_view item.now) ∷ [])) }
{
    match item {
        Item::Section(body) if name == b"physical_volumes".as_slice() => {
            pass_pvs(alloc, unknown, &joined(alloc, path, name)?, body)
        }
        Item::Section(body) if name == b"logical_volumes".as_slice() => {
            pass_lvs(alloc, unknown, &joined(alloc, path, name)?, body)
        }
        _ => pass_unless(alloc, unknown, &GROUP_KEYS, path, name),
    }
}

// What is unknown in physical volumes.
fn pass_pvs(
    alloc: Global,
    unknown: &mut Vec<Text>,
    path: &[u8],
    section: &Section<'_>,
) -> Result<(), AllocError>
    ensures { OnOk result (unknown.new.items ≡ unknown.old.items ++ in_volumes in_pv path.now (items section.now)) }
{
    let mut next = section.split_first();
    while let Some((name, item, after)) = next {
        let path = joined(alloc, path, name)?;
        match item {
            Item::Section(body) => pass_pv(alloc, unknown, &path, &body)?,
            _ => unknown.push(Text::from_vec(path))?,
        }
        next = after.split_first();
    }
    Ok(())
}

// What is unknown in a physical volume.
fn pass_pv(
    alloc: Global,
    unknown: &mut Vec<Text>,
    path: &[u8],
    section: &Section<'_>,
) -> Result<(), AllocError>
    ensures { OnOk result (unknown.new.items ≡ unknown.old.items ++ in_pv path.now (items section.now)) }
{
    pass_known(alloc, unknown, &PV_KEYS, path, section)
}

// What is unknown in logical volumes.
fn pass_lvs(
    alloc: Global,
    unknown: &mut Vec<Text>,
    path: &[u8],
    section: &Section<'_>,
) -> Result<(), AllocError>
    ensures { OnOk result (unknown.new.items ≡ unknown.old.items ++ in_volumes in_lv path.now (items section.now)) }
{
    let mut next = section.split_first();
    while let Some((name, item, after)) = next {
        let path = joined(alloc, path, name)?;
        match item {
            Item::Section(body) => pass_lv(alloc, unknown, &path, &body)?,
            _ => unknown.push(Text::from_vec(path))?,
        }
        next = after.split_first();
    }
    Ok(())
}

// What is unknown in a logical volume.
fn pass_lv(
    alloc: Global,
    unknown: &mut Vec<Text>,
    path: &[u8],
    section: &Section<'_>,
) -> Result<(), AllocError>
    ensures { OnOk result (unknown.new.items ≡ unknown.old.items ++ in_lv path.now (items section.now)) }
{
    let mut next = section.split_first();
    while let Some((name, item, after)) = next {
        pass_lv_item(alloc, unknown, path, name, &item)?;
        next = after.split_first();
    }
    Ok(())
}

fn pass_lv_item(
    alloc: Global,
    unknown: &mut Vec<Text>,
    path: &[u8],
    name: &[u8],
    item: &Item<'_>,
) -> Result<(), AllocError>
    ensures { OnOk result (unknown.new.items ≡ unknown.old.items ++ in_lv path.now ((name.now, item_view item.now) ∷ [])) }
{
    match item {
        Item::Section(body) if is_segment(name) => {
            pass_segment(alloc, unknown, &joined(alloc, path, name)?, body)
        }
        _ => pass_unless(alloc, unknown, &LV_KEYS, path, name),
    }
}

// What is unknown in a segment, by its type.
fn pass_segment(
    alloc: Global,
    unknown: &mut Vec<Text>,
    path: &[u8],
    section: &Section<'_>,
) -> Result<(), AllocError>
    ensures { OnOk result (unknown.new.items ≡ unknown.old.items ++ in_segment path.now (items section.now)) }
{
    if is_striped(section) {
        pass_known(alloc, unknown, &STRIPED_KEYS, path, section)
    } else {
        pass_known(alloc, unknown, &MIRROR_KEYS, path, section)
    }
}

fn is_striped(section: &Section<'_>) -> bool
    ensures { result ≡ option_map_or (pointwise nat_eq (codes "striped")) (option_and_then text (lookup (codes "type") (items section.now))) false }
{
    match section.get(b"type") {
        Some(Item::Text(type_name)) => b"striped".as_slice() == type_name,
        _ => false,
    }
}

// The names of a section that aren't known.
fn pass_known(
    alloc: Global,
    unknown: &mut Vec<Text>,
    known: &[&[u8]],
    path: &[u8],
    section: &Section<'_>,
) -> Result<(), AllocError>
    ensures { OnOk result (unknown.new.items ≡ unknown.old.items ++ flat_map (λ item. unless_known (map as_bytes known.now) path.now item.0) (items section.now)) }
{
    let mut next = section.split_first();
    while let Some((name, _, after)) = next {
        pass_unless(alloc, unknown, known, path, name)?;
        next = after.split_first();
    }
    Ok(())
}

// The path of a name that isn't known.
fn pass_unless(
    alloc: Global,
    unknown: &mut Vec<Text>,
    known: &[&[u8]],
    path: &[u8],
    name: &[u8],
) -> Result<(), AllocError>
    ensures { OnOk result (unknown.new.items ≡ unknown.old.items ++ unless_known (map as_bytes known.now) path.now name.now) }
{
    if !has_word(known, name) {
        unknown.push(Text::from_vec(joined(alloc, path, name)?))?;
    }
    Ok(())
}

// The path of a name in the section with this path.
fn joined(alloc: Global, path: &[u8], name: &[u8]) -> Result<Vec<u8>, AllocError>
    ensures { IfOk result (λ joined. joined.items ≡ path_in path.now name.now) }
{
    let mut bytes = Vec::new(alloc);
    bytes.extend_from_slice(path)?;
    bytes.push(b'/')?;
    bytes.extend_from_slice(name)?;
    Ok(bytes)
}
