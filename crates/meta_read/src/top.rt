//! The group that a whole tree stands for.
ghost use Rattle.std.specs.Prelude.{◌∷◌, [], Ok, Err, codes, is_none, if◌then◌else◌};
ghost use Rattle.lvm_name.specs.Names.{group_name_refusal};
ghost use Rattle.conf_text.specs.Items.{items};
ghost use Rattle.meta_model.specs.Keys.{only_text, only_number};
ghost use Rattle.meta_model.specs.Standing.{group_of as group_of_tree, only_section};
ghost use Rattle.meta_model.specs.declared.refusal.GroupRefusal.TheVariants.{BadName, WrongKind};
ghost use Rattle.meta_read.specs.Reading.{Gives, GivesBy, as_sections, as_named};

use crate::group::read_group;
use crate::keys::has_only_text;
use crate::refusals::{bad_name, missing, wrong_kind};
use crate::sections::{NamedSection, sections_in};
use conf_text::{Item, Section};
use lvm_name::{GroupName, NameRefusal};
use meta_model::{Group, GroupRefusal};
use std::alloc::Global;

/// The group that the entries of a whole tree stand for.
#[tactic(auto, using(crate::proofs::Grouped::group_in_parts), unfolding(meta_model::specs::Standing::group_of))]
pub(crate) fn read_top(alloc: Global, top: &Section<'_>) -> Result<Group, GroupRefusal>
    ensures { Gives (group_of_tree top.now) result }
{
    let sections = sections_in(alloc, top)?;
    let (name, body) = one_section(alloc, &sections)?;
    is_group_text(alloc, top)?;
    is_version_1(alloc, top)?;
    read_group(alloc, name, body)
}

// The one section of the top level, with its name.
fn one_section<'s, 'a>(
    alloc: Global,
    sections: &'s [NamedSection<'a>],
) -> Result<(GroupName, &'s Section<'a>), GroupRefusal>
    ensures { GivesBy as_named (only_section (as_sections sections.entry.now)) result }
{
    match sections {
        [] => Err(missing(alloc, b"group")),
        [found] => with_group_name(alloc, found),
        [_, (second, _), ..] => Err(wrong_kind(alloc, second)),
    }
}

// The section with its name, which is that of a group.
fn with_group_name<'s, 'a>(
    alloc: Global,
    found: &'s NamedSection<'a>,
) -> Result<(GroupName, &'s Section<'a>), GroupRefusal>
    ensures { GivesBy as_named (only_section ((found.entry.now.0.now, found.entry.now.1) ∷ [])) result }
{
    let (name, body) = found;
    let name = group_name(alloc, name)?;
    Ok((name, body))
}

// The name of a group.
fn group_name(alloc: Global, name: &[u8]) -> Result<GroupName, GroupRefusal>
    ensures { Gives (if is_none (group_name_refusal name.now) then Ok name.now else Err (BadName name.now)) result }
{
    match GroupName::new(alloc, name) {
        Ok(name) => Ok(name),
        Err(NameRefusal::NoMemory) => Err(GroupRefusal::NoMemory),
        Err(_) => Err(bad_name(alloc, name)),
    }
}

// What the text says that it contains, where it says so.
fn is_group_text(alloc: Global, top: &Section<'_>) -> Result<(), GroupRefusal>
    ensures { Gives (only_text (codes "Text Format Volume Group") (λ key. WrongKind key) (codes "contents") (items top.now)) result }
{
    if has_only_text(top, b"contents", b"Text Format Volume Group") {
        Ok(())
    } else {
        Err(wrong_kind(alloc, b"contents"))
    }
}

// The text's version, where it has one.
fn is_version_1(alloc: Global, top: &Section<'_>) -> Result<(), GroupRefusal>
    ensures { Gives (only_number 1 (λ key. WrongKind key) (codes "version") (items top.now)) result }
{
    match top.get(b"version") {
        None | Some(Item::Number(1)) => Ok(()),
        Some(_) => Err(wrong_kind(alloc, b"version")),
    }
}
