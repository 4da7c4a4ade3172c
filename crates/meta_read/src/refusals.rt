//! Refusals of keys and of names.
ghost use Rattle.std.specs.Prelude.{◌≡◌, IfOk};
ghost use Rattle.meta_model.specs.declared.refusal.GroupRefusal.TheVariants.{Missing, WrongKind, UnknownStatus, UnknownSegment, Foreign, UnknownName, BadName, BadId};
ghost use Rattle.meta_read.specs.Reading.{Refuses};

use meta_model::GroupRefusal;
use sector_base::Text;
use std::alloc::{AllocError, Global};

/// The key isn't there.
pub(crate) fn missing(alloc: Global, key: &[u8]) -> GroupRefusal
    ensures { Refuses (Missing key.now) result }
{
    match text_of(alloc, key) {
        Ok(text) => GroupRefusal::Missing(text),
        Err(_) => GroupRefusal::NoMemory,
    }
}

/// The key has a value of another kind.
pub(crate) fn wrong_kind(alloc: Global, key: &[u8]) -> GroupRefusal
    ensures { Refuses (WrongKind key.now) result }
{
    match text_of(alloc, key) {
        Ok(text) => GroupRefusal::WrongKind(text),
        Err(_) => GroupRefusal::NoMemory,
    }
}

/// No status has the word.
pub(crate) fn unknown_status(alloc: Global, word: &[u8]) -> GroupRefusal
    ensures { Refuses (UnknownStatus word.now) result }
{
    match text_of(alloc, word) {
        Ok(text) => GroupRefusal::UnknownStatus(text),
        Err(_) => GroupRefusal::NoMemory,
    }
}

/// No segment has the type.
pub(crate) fn unknown_segment(alloc: Global, type_name: &[u8]) -> GroupRefusal
    ensures { Refuses (UnknownSegment type_name.now) result }
{
    match text_of(alloc, type_name) {
        Ok(text) => GroupRefusal::UnknownSegment(text),
        Err(_) => GroupRefusal::NoMemory,
    }
}

/// The group is of another kind, by this key.
pub(crate) fn foreign(alloc: Global, key: &[u8]) -> GroupRefusal
    ensures { Refuses (Foreign key.now) result }
{
    match text_of(alloc, key) {
        Ok(text) => GroupRefusal::Foreign(text),
        Err(_) => GroupRefusal::NoMemory,
    }
}

/// No volume has the name.
pub(crate) fn unknown_name(alloc: Global, name: &[u8]) -> GroupRefusal
    ensures { Refuses (UnknownName name.now) result }
{
    match text_of(alloc, name) {
        Ok(text) => GroupRefusal::UnknownName(text),
        Err(_) => GroupRefusal::NoMemory,
    }
}

/// The section's name is no name of a group or volume, or stands twice.
pub(crate) fn bad_name(alloc: Global, name: &[u8]) -> GroupRefusal
    ensures { Refuses (BadName name.now) result }
{
    match text_of(alloc, name) {
        Ok(text) => GroupRefusal::BadName(text),
        Err(_) => GroupRefusal::NoMemory,
    }
}

/// The key's value is no id.
pub(crate) fn bad_id(alloc: Global, key: &[u8]) -> GroupRefusal
    ensures { Refuses (BadId key.now) result }
{
    match text_of(alloc, key) {
        Ok(text) => GroupRefusal::BadId(text),
        Err(_) => GroupRefusal::NoMemory,
    }
}

/// A text of these bytes.
pub(crate) fn text_of(alloc: Global, bytes: &[u8]) -> Result<Text, AllocError>
    ensures { IfOk result (λ text. text ≡ bytes.now) }
{
    Ok(Text::from_vec(Vec::from_slice(alloc, bytes)?))
}
