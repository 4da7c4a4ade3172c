//! The entries read so far, with the names that each open section has.
ghost use Rattle.std.specs.Prelude.{◌≡◌, ◌<◌, ◌⊎◌, ◌+◌, ◌/◌, ◌++◌, [], ◌∷◌, suc, length, ℕ, List, map, IfOk, IfSome, IfNone, OnOk, vec_len, vec_capacity};
ghost use Rattle.std.specs.Bool.{MatchBool};
ghost use Rattle.std.specs.List.{slice_get};
ghost use Rattle.conf_text.specs.Entries.{sections, is_given};
ghost use Rattle.conf_text.specs.Outline.{IsKeyed, with_open, with_key, with_close};
ghost use Rattle.conf_text.specs.Views.{entry_view};

use crate::tree::ConfEntry;
use std::alloc::{AllocError, Global};
use std::collections::HashSet;
use std::marker::Model;
use std::mem;

// A section round another: the place of the brace between the two, and the names that it has.
#[derive(Drop)]
pub(crate) struct Outer<'a> {
    brace: usize,
    names: HashSet<&'a [u8]>,
}

/// The entries read so far. Contracts see the list of them, and the places of the open braces, the innermost first.
#[derive(Drop)]
pub(crate) struct Outline<'a> {
    entries: Vec<ConfEntry<'a>>,
    // The names of the innermost section, and the sections round it, the outermost first.
    names: HashSet<&'a [u8]>,
    outer: Vec<Outer<'a>>,
}

impl<'a> Model for Outline<'a> {
    ghost use Rattle.std.specs.Prelude.{map, reverse};
    ghost use Rattle.conf_text.specs.Entries.{sections};
    ghost use Rattle.conf_text.specs.Outline.{Seen, HasSections, outline};
    ghost use Rattle.conf_text.specs.Views.{entry_view};

    ghost Value = { Seen };

    ghost view = { λ o. outline o.entries.items o.outer.items };

    ghost invariant = { λ o. HasSections (λ k. k.now) o.names.keys (reverse o.outer.items) (sections (map entry_view o.entries.items)) };
}

impl<'a> Outline<'a> {
    /// Nothing was read.
    pub(crate) fn new(alloc: Global) -> Self
        ensures { result ≡ record { entries = []; braces = [] } }
    {
        Outline {
            entries: Vec::new(alloc),
            names: HashSet::new(alloc),
            outer: Vec::new(alloc),
        }
    }

    /// Whether the innermost section has the name.
    pub(crate) fn has(&self, name: &[u8]) -> bool
        ensures { result ≡ is_given (sections self.now.entries) name.now }
    {
        self.names.contains(name)
    }

    /// How many sections are open round the innermost one.
    pub(crate) fn depth(&self) -> usize
        ensures { length (sections self.now.entries) ≡ suc result }
    {
        self.outer.as_slice().len()
    }

    /// The place of the innermost open brace.
    pub(crate) fn last_brace(&self) -> Option<usize>
        ensures { result ≡ slice_get self.now.braces 0 }
    {
        match self.outer.last() {
            Some(outer) => Some(outer.brace),
            None => None,
        }
    }

    /// Adds a key.
    pub(crate) fn add_key(&mut self, name: &'a [u8], entry: ConfEntry<'a>) -> Result<(), AllocError>
        requires { IsKeyed name.now (entry_view entry) }
        ensures { IfOk result (λ _. self.new ≡ with_key self.old (entry_view entry.entry)) }
    {
        make_room(&mut self.entries)?;
        self.names.insert(name)?;
        self.entries.push(entry)?;
        Ok(())
    }

    /// Opens a section. Its brace is at this place.
    pub(crate) fn open(
        &mut self,
        alloc: Global,
        name: &'a [u8],
        brace: usize,
    ) -> Result<(), AllocError>
        ensures { IfOk result (λ _. self.new ≡ with_open self.old name.now brace) }
    {
        make_room(&mut self.entries)?;
        self.outer.reserve(1)?;
        self.names.insert(name)?;
        let names = mem::replace(&mut self.names, HashSet::new(alloc));
        self.outer.push(Outer { brace, names })?;
        self.entries.push(ConfEntry::Open(name))?;
        Ok(())
    }

    /// Closes the innermost section. False where none is open.
    pub(crate) fn close(&mut self) -> Result<bool, AllocError>
        ensures closed { IfOk result (λ closed. MatchBool closed ((place : ℕ) × (rest : List ℕ) × (self.old.braces ≡ place ∷ rest) × (self.new ≡ with_close self.old rest)) (self.old.braces ≡ [])) }
    {
        make_room(&mut self.entries)?;
        match self.outer.pop() {
            None => Ok(false),
            Some(outer) => {
                self.names = outer.names;
                self.entries.push(ConfEntry::Close)?;
                Ok(true)
            }
        }
    }

    /// The entries.
    pub(crate) fn into_entries(self) -> Vec<ConfEntry<'a>>
        ensures { map entry_view result.items ≡ self.entry.entries }
    {
        self.entries
    }
}

// Room for one entry more at least; where there was none, for an eighth more of what is there too.
fn make_room<'a>(entries: &mut Vec<ConfEntry<'a>>) -> Result<(), AllocError>
    ensures items { entries.new.items ≡ entries.old.items }
    ensures room { OnOk result (vec_len entries.new < vec_capacity entries.new) }
    ensures grows { OnOk result ((vec_capacity entries.new ≡ vec_capacity entries.old) ⊎ (vec_len entries.new + vec_len entries.new / 8 < vec_capacity entries.new)) }
{
    let len = entries.len();
    if len < entries.capacity() {
        return Ok(());
    }
    entries.reserve_exact(len / 8 + 8)
}
