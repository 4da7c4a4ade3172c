//! Keys of a section, by their kinds.
ghost use Rattle.std.specs.Prelude.{◌≡◌, [], Some, None, option_map, nat_eq, true, false};
ghost use Rattle.std.specs.Option.{option_map_or};
ghost use Rattle.std.specs.Cmp.Lexicographic.{pointwise};
ghost use Rattle.conf_text.specs.Items.{items, lookup};
ghost use Rattle.conf_text.specs.Sections.{item_view};
ghost use Rattle.meta_model.specs.Keys.{or_refused, required, optional, number, text, section as section_of};
ghost use Rattle.meta_model.specs.declared.refusal.GroupRefusal.TheVariants.{Missing, WrongKind};
ghost use Rattle.meta_read.specs.Reading.{Gives, GivesBy, as_bytes};

use crate::refusals::{missing, wrong_kind};
use conf_text::{Item, Section};
use meta_model::GroupRefusal;
use std::alloc::Global;

/// The number of a key that has to stand.
pub(crate) fn required_number(
    alloc: Global,
    section: &Section<'_>,
    key: &[u8],
) -> Result<u64, GroupRefusal>
    ensures { Gives (required number key.now (items section.now)) result }
{
    match required_item(alloc, section, key)? {
        Item::Number(number) => Ok(number),
        _ => Err(wrong_kind(alloc, key)),
    }
}

/// The number of a key, or this one where the key is absent.
pub(crate) fn number_or(
    alloc: Global,
    section: &Section<'_>,
    key: &[u8],
    absent: u64,
) -> Result<u64, GroupRefusal>
    ensures { Gives (optional number absent key.now (items section.now)) result }
{
    match section.get(key) {
        Some(Item::Number(number)) => Ok(number),
        Some(_) => Err(wrong_kind(alloc, key)),
        None => Ok(absent),
    }
}

/// The number of a key, or none where the key is absent.
pub(crate) fn number_if_any(
    alloc: Global,
    section: &Section<'_>,
    key: &[u8],
) -> Result<Option<u64>, GroupRefusal>
    ensures { Gives (optional (λ node. option_map (λ n. Some n) (number node)) None key.now (items section.now)) result }
{
    match section.get(key) {
        Some(Item::Number(number)) => Ok(Some(number)),
        Some(_) => Err(wrong_kind(alloc, key)),
        None => Ok(None),
    }
}

/// The string of a key that has to stand.
pub(crate) fn required_text<'a>(
    alloc: Global,
    section: &Section<'a>,
    key: &[u8],
) -> Result<&'a [u8], GroupRefusal>
    ensures { GivesBy as_bytes (required text key.now (items section.now)) result }
{
    match required_item(alloc, section, key)? {
        Item::Text(text) => Ok(text),
        _ => Err(wrong_kind(alloc, key)),
    }
}

/// The string of a key, or an empty one where the key is absent.
pub(crate) fn text_or_empty<'a>(
    alloc: Global,
    section: &Section<'a>,
    key: &[u8],
) -> Result<&'a [u8], GroupRefusal>
    ensures { GivesBy as_bytes (optional text [] key.now (items section.now)) result }
{
    match section.get(key) {
        Some(Item::Text(text)) => Ok(text),
        Some(_) => Err(wrong_kind(alloc, key)),
        None => Ok(&[]),
    }
}

/// The section of a key that has to stand.
pub(crate) fn required_section<'a>(
    alloc: Global,
    section: &Section<'a>,
    key: &[u8],
) -> Result<Section<'a>, GroupRefusal>
    ensures { Gives (required section_of key.now (items section.now)) result }
{
    match required_item(alloc, section, key)? {
        Item::Section(body) => Ok(body),
        _ => Err(wrong_kind(alloc, key)),
    }
}

/// The section of a key, or an empty one where the key is absent.
pub(crate) fn section_or_empty<'a>(
    alloc: Global,
    section: &Section<'a>,
    key: &[u8],
) -> Result<Section<'a>, GroupRefusal>
    ensures { Gives (optional section_of [] key.now (items section.now)) result }
{
    match section.get(key) {
        Some(Item::Section(body)) => Ok(body),
        Some(_) => Err(wrong_kind(alloc, key)),
        None => Ok(Section::new(&[])),
    }
}

/// Whether the key has this string, where it stands.
pub(crate) fn has_only_text(section: &Section<'_>, key: &[u8], wanted: &[u8]) -> bool
    ensures { result ≡ option_map_or (λ node. option_map_or (λ s. pointwise nat_eq wanted.now s) (text node) false) (lookup key.now (items section.now)) true }
{
    match section.get(key) {
        None => true,
        Some(Item::Text(text)) => text == wanted,
        Some(_) => false,
    }
}

/// What a key that has to stand has.
pub(crate) fn required_item<'a>(
    alloc: Global,
    section: &Section<'a>,
    key: &[u8],
) -> Result<Item<'a>, GroupRefusal>
    ensures { GivesBy item_view (or_refused (Missing key.now) (lookup key.now (items section.now))) result }
{
    match section.get(key) {
        Some(item) => Ok(item),
        None => Err(missing(alloc, key)),
    }
}
