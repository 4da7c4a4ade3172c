//! Which areas hold the copy that is in force.
ghost use Rattle.std.specs.Prelude.{◌≡◌, ◌&&◌, Some, false, option_map, unwrap_or, slice_get};
ghost use Rattle.std.specs.List.{list_any};
ghost use Rattle.std.specs.Str.{bytes_eq};
ghost use Rattle.scan_rules.specs.Answers.{denies_copy, denying_disk};
ghost use Rattle.scan_rules.specs.Decision.{gives, holds, is_held, is_listed};
ghost use Rattle.scan_rules.specs.Flat.{all_held, held_of};
ghost use Rattle.scan_rules.specs.Readings.{given_by, gives_of, reading_of, readings_of};

use crate::held::HeldCopy;
use crate::listed::lists_id;
use crate::readings::{AreaGives, AreaRead, DiskRead, GroupCopy};
use crate::same::same_text;
use id_index::Members;

// Whether the copy with this number has the same text as `copy`, whose number is `own`.
fn has_text(copies: &[GroupCopy], number: usize, own: usize, copy: &GroupCopy) -> bool
    requires { slice_get copies.now own ≡ Some copy.now }
    ensures { result ≡
        unwrap_or (option_map (λ other. bytes_eq other.text copy.now.text) (slice_get copies.now number)) false }
{
    if number == own {
        return true;
    }
    match copies.get(number) {
        Some(other) => same_text(&other.text, &copy.text),
        None => false,
    }
}

// Whether the area gives a copy with the text of `copy`, whose number is `own`.
pub(crate) fn gives_text(
    copies: &[GroupCopy],
    area: &AreaGives,
    own: usize,
    copy: &GroupCopy,
) -> bool
    requires { slice_get copies.now own ≡ Some copy.now }
    ensures { result ≡ gives copy.now.text (gives_of copies.now area.now) }
{
    match area {
        AreaGives::Copy(number) => has_text(copies, *number, own, copy),
        _ => false,
    }
}

// Whether the group lists the disk, and the disk holds the copy.
fn is_listed_holder(
    copies: &[GroupCopy],
    disk: &DiskRead,
    members: &Members<'_>,
    own: usize,
    copy: &GroupCopy,
) -> bool
    requires { slice_get copies.now own ≡ Some copy.now }
    ensures { result ≡
        (is_listed members.now (reading_of copies.now disk.now)
        && holds copy.now.text (reading_of copies.now disk.now)) }
{
    match &disk.pv {
        Some(pv) => lists_id(members, &pv.id) && has_area(copies, pv.areas.as_slice(), own, copy),
        None => false,
    }
}

// Whether one of the areas holds the copy.
fn has_area(copies: &[GroupCopy], areas: &[AreaRead], own: usize, copy: &GroupCopy) -> bool
    requires { slice_get copies.now own ≡ Some copy.now }
    ensures { result ≡ list_any (gives copy.now.text) (given_by copies.now areas.now) }
{
    for area in areas {
        if let Some(given) = &area.gives {
            if gives_text(copies, given, own, copy) {
                return true;
            }
        }
    }
    false
}

// Whether a listed disk holds the copy.
pub(crate) fn is_held_by_listed(
    copies: &[GroupCopy],
    disks: &[DiskRead],
    members: &Members<'_>,
    own: usize,
    copy: &GroupCopy,
) -> bool
    requires { slice_get copies.now own ≡ Some copy.now }
    ensures { result ≡ is_held members.now copy.now.text (readings_of copies.now disks.now) }
{
    for disk in disks {
        if is_listed_holder(copies, disk, members, own, copy) {
            return true;
        }
    }
    false
}

// The first disk that holds a copy with the same sequence number and another text.
pub(crate) fn find_conflict(
    copies: &[GroupCopy],
    held: &[HeldCopy],
    own: usize,
    copy: &GroupCopy,
) -> Option<u32>
    requires { slice_get copies.now own ≡ Some copy.now }
    ensures { result ≡ denying_disk copy.now (all_held copies.now held.now) }
{
    for one in held {
        if denies(copies, *one, own, copy) {
            return Some(one.disk);
        }
    }
    None
}

// Whether that copy has the same sequence number and another text.
fn denies(copies: &[GroupCopy], one: HeldCopy, own: usize, copy: &GroupCopy) -> bool
    requires { slice_get copies.now own ≡ Some copy.now }
    ensures { result ≡ unwrap_or (option_map (denies_copy copy.now) (held_of copies.now one)) false }
{
    match copies.get(one.number) {
        Some(other) => other.group.group().seqno == copy.group.group().seqno
            && !has_text(copies, one.number, own, copy),
        None => false,
    }
}
