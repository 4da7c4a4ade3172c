//! The tree of a text.
ghost use Rattle.std.specs.Prelude.{◌≡◌, map};
ghost use Rattle.conf_text.specs.Entries.{Conf};
ghost use Rattle.conf_text.specs.Views.{entry_view};

use crate::section::Section;
use std::marker::Model;

/// An element of a list.
#[derive(Debug, Drop)]
pub enum Scalar {
    /// A number.
    Number(u64),
    /// A string, without its escapes.
    Text(Vec<u8>),
}

/// A piece of a tree, with its name as it stands in the text. A section is an `Open`, the entries in it, and a `Close`.
#[derive(Debug, Drop)]
pub enum ConfEntry<'a> {
    /// A section begins.
    Open(&'a [u8]),
    /// The innermost section ends.
    Close,
    /// A key with a number.
    Number(&'a [u8], u64),
    /// A key with a string.
    Text(&'a [u8], Vec<u8>),
    /// A key with a list.
    List(&'a [u8], Vec<Scalar>),
}

/// The tree of a text. Contracts see the list of its entries.
#[derive(Debug, Drop)]
pub struct Tree<'a> {
    entries: Vec<ConfEntry<'a>>,
}

impl<'a> Model for Tree<'a> {
    ghost Value = { Conf };

    ghost view = { λ tree. map entry_view tree.entries.items };
}

impl<'a> Tree<'a> {
    /// The tree of these entries.
    pub fn from_vec(entries: Vec<ConfEntry<'a>>) -> Self
        ensures { result ≡ map entry_view entries.entry.items }
    {
        Tree { entries }
    }

    /// Its entries.
    pub fn as_slice(&self) -> &[ConfEntry<'a>]
        ensures { map entry_view result.now ≡ self.now }
    {
        &self.entries
    }

    /// The whole tree as a section.
    pub fn top(&self) -> Section<'_>
        ensures { result ≡ self.now }
    {
        Section::new(&self.entries)
    }
}
