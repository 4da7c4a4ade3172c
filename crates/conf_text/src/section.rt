//! Sections of a tree.
ghost use Rattle.std.specs.Prelude.{◌≡◌, ℕ, List, [], ◌∷◌, map, MatchOption, option_map, IfSome, IfNone, ◌<◌, ◌≤◌, ◌+◌, ◌-◌, ◌^◌, length, take, drop};
ghost use Rattle.conf_text.specs.Entries.{Conf, Close};
ghost use Rattle.conf_text.specs.Items.{items, items_from, lookup, body_from};
ghost use Rattle.conf_text.specs.Sections.{item_view, named_item_view};
ghost use Rattle.conf_text.specs.Views.{entry_view};

use crate::tree::{ConfEntry, Scalar};
use std::marker::Model;

/// The entries of a section, or of a whole text. Contracts see the list of them.
#[derive(Debug, Drop)]
pub struct Section<'a> {
    entries: &'a [ConfEntry<'a>],
}

impl<'a> Model for Section<'a> {
    ghost use Rattle.std.specs.Prelude.{map};
    ghost use Rattle.conf_text.specs.Entries.{Conf};
    ghost use Rattle.conf_text.specs.Views.{entry_view};

    ghost Value = { Conf };

    ghost view = { λ section. map entry_view section.entries.now };
}

/// What a name of a section has.
#[derive(Debug, Drop)]
pub enum Item<'a> {
    /// A number.
    Number(u64),
    /// A string.
    Text(&'a [u8]),
    /// A list.
    List(&'a [Scalar]),
    /// A section.
    Section(Section<'a>),
}

impl<'a> Section<'a> {
    /// The section of these entries.
    pub fn new(entries: &'a [ConfEntry<'a>]) -> Self
        ensures { result ≡ map entry_view entries.now }
    {
        Section { entries }
    }

    /// The first name of the section with what it has, and the section after it. None where there is none.
    pub fn split_first(&self) -> Option<(&'a [u8], Item<'a>, Section<'a>)>
        ensures first { IfSome result (λ r. items self.now ≡ (r.0.now, item_view r.1) ∷ items r.2) }
        ensures shorter { IfSome result (λ r. length r.2 < length self.now) }
        ensures none { IfNone result (items self.now ≡ []) }
    {
        for (at, entry) in self.entries.iter().enumerate() {
            match first_item(entry, &self.entries[at + 1..]) {
                Some(first) => return Some(first),
                None => {}
            }
        }
        None
    }

    /// What the name has in the section. None where the section lacks it.
    pub fn get(&self, name: &[u8]) -> Option<Item<'a>>
        ensures { option_map item_view result ≡ lookup name.now (items self.now) }
    {
        let mut rest = Section::new(self.entries);
        while let Some((found, item, after)) = rest.split_first() {
            if found == name {
                return Some(item);
            }
            rest = after;
        }
        None
    }
}

// What the entry gives a section, and the section after it. None where it gives nothing.
fn first_item<'a>(
    entry: &'a ConfEntry<'a>,
    rest: &'a [ConfEntry<'a>],
) -> Option<(&'a [u8], Item<'a>, Section<'a>)>
    ensures first { IfSome result (λ r. items (entry_view entry.entry.now ∷ map entry_view rest.entry.now) ≡ (r.0.now, item_view r.1) ∷ items r.2) }
    ensures shorter { IfSome result (λ r. length r.2 ≤ length rest.entry.now) }
    ensures none { IfNone result (entry_view entry.entry.now ≡ Close) }
{
    match entry {
        ConfEntry::Close => None,
        ConfEntry::Number(name, number) => Some((name, Item::Number(*number), Section::new(rest))),
        ConfEntry::Text(name, text) => Some((name, Item::Text(text), Section::new(rest))),
        ConfEntry::List(name, scalars) => Some((name, Item::List(scalars), Section::new(rest))),
        ConfEntry::Open(name) => {
            let (body, after) = split_body(rest);
            Some((name, Item::Section(body), after))
        }
    }
}

// The body of a section that was opened before these entries, and what stands after its brace.
fn split_body<'a>(entries: &'a [ConfEntry<'a>]) -> (Section<'a>, Section<'a>)
    ensures body { result.0 ≡ body_from 0 (map entry_view entries.entry.now) }
    ensures after { items result.1 ≡ items_from 1 (map entry_view entries.entry.now) }
    ensures shorter { length result.1 ≤ length entries.entry.now }
{
    let len = body_len(entries);
    let (body, rest) = entries.split_at(len);
    (Section::new(body), Section::new(rest))
}

// How many entries stand before the brace that closes the section.
fn body_len(entries: &[ConfEntry<'_>]) -> usize
    ensures place { result ≡ length (body_from 0 (map entry_view entries.now)) }
    ensures within { result ≤ length entries.now }
{
    let mut deep = 0usize;
    for (at, entry) in entries.iter().enumerate() {
        match depth_after(entry, deep) {
            Some(next) => deep = next,
            None => return at,
        }
    }
    entries.len()
}

// How many sections of a body are open after the entry. None where it closes the body itself.
fn depth_after(entry: &ConfEntry<'_>, deep: usize) -> Option<usize>
    requires { deep < 2 ^ 63 }
    ensures step { MatchOption result ((entry_view entry.now ≡ Close) × (deep ≡ 0)) (λ next. (es : Conf) → body_from deep (entry_view entry.now ∷ es) ≡ entry_view entry.now ∷ body_from next es) }
    ensures bound { IfSome result (λ next. next ≤ deep + 1) }
{
    match entry {
        ConfEntry::Open(_) => Some(deep + 1),
        ConfEntry::Close => deep.checked_sub(1),
        _ => Some(deep),
    }
}
