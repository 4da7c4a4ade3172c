//! Reading the words of a command from left to right.
ghost use Rattle.std.specs.Prelude.{◌≡◌, OnOk};
ghost use Rattle.command_table.specs.Words.{after_role, after_word, fault_of, first_fault, has_key, is_complete, nothing_read, option_named, read_by, role_of, role_of_row, split_by};
ghost use Rattle.command_table.specs.Given.{given_by, value_in};
ghost use Rattle.command_table.specs.Table.{options_of};

use crate::given_options::GivenOptions;
use crate::role::Role;
use crate::values::fault_in;
use crate::{CommandName, Fault, Kind, OptionKey, OptionRow};
use std::alloc::{AllocError, Global};

/// The words of a command so far, taken apart, and the first of them that is faulty.
#[derive(Debug, Drop)]
pub struct Reading<'a> {
    /// The options so far.
    pub seen: Vec<OptionKey>,
    /// Those of them that have their value.
    pub given: Vec<(OptionKey, &'a [u8])>,
    /// The option whose value the next word is.
    pub waiting: Option<OptionRow>,
    pub arguments: Vec<&'a [u8]>,
    /// The first fault, and the place of its word.
    pub fault: Option<(Fault, u64)>,
}

impl<'a> Reading<'a> {
    /// No word yet.
    pub fn new(alloc: Global) -> Self
        ensures { read_by result ≡ nothing_read }
    {
        Reading {
            seen: Vec::new(alloc),
            given: Vec::new(alloc),
            waiting: None,
            arguments: Vec::new(alloc),
            fault: None,
        }
    }

    // What the next word is.
    fn role(&self, name: CommandName, word: &[u8]) -> Role
        ensures { result ≡ role_of (options_of name) (split_by self.now) word.now }
    {
        if word.first() == Some(&b'-') {
            match option_named(name.options(), word) {
                Some(row) if !self.has_seen(row.key) => role_of_row(row),
                _ => Role::Stray,
            }
        } else {
            match self.waiting {
                Some(row) => Role::Value(row),
                None => Role::Argument(self.arguments.len()),
            }
        }
    }

    // Whether the option stands among the words.
    fn has_seen(&self, key: OptionKey) -> bool
        ensures { result ≡ has_key self.now.seen.items key }
    {
        has_key(&self.seen, key)
    }

    /// Whether no option lacks its value.
    pub fn is_complete(&self) -> bool
        ensures { result ≡ is_complete (split_by self.now) }
    {
        self.seen.len() == self.given.len()
    }

    /// The options with their values.
    pub fn options(&self) -> GivenOptions<'_>
        ensures { given_by result ≡ value_in (split_by self.now).given }
    {
        GivenOptions {
            pairs: self.given.as_slice(),
        }
    }

    /// Takes one more word. Only memory can be wanting.
    pub fn take(&mut self, name: CommandName, word: &'a [u8], place: u64) -> Result<(), AllocError>
        ensures { OnOk result (read_by self.new ≡ after_word name (read_by self.old) (word.now, place)) }
    {
        let role = self.role(name, word);
        self.fault = first_fault(self.fault, fault_of(name, word, role), place);
        self.add(word, role)
    }

    // Puts the word where it belongs.
    fn add(&mut self, word: &'a [u8], role: Role) -> Result<(), AllocError>
        ensures split { OnOk result (split_by self.new ≡ after_role (split_by self.old) word.now role) }
        ensures fault { self.new.fault ≡ self.old.fault }
    {
        match role {
            Role::Stray => self.waiting = None,
            Role::Option(row) => {
                self.seen.push(row.key)?;
                self.waiting = Some(row);
            }
            Role::Flag(key) => {
                self.seen.push(key)?;
                self.given.push((key, &[]))?;
                self.waiting = None;
            }
            Role::Value(row) => {
                self.given.push((row.key, word))?;
                self.waiting = None;
            }
            Role::Argument(_) => self.arguments.push(word)?,
        }
        Ok(())
    }
}

// What an option is that did not stand before.
fn role_of_row(row: OptionRow) -> Role
    ensures { result ≡ role_of_row row }
{
    match row.kind {
        Kind::Flag => Role::Flag(row.key),
        _ => Role::Option(row),
    }
}

/// Whether the option is one of these.
pub fn has_key(keys: &[OptionKey], key: OptionKey) -> bool
    ensures { result ≡ has_key keys.now key }
{
    keys.iter().any(|seen| seen.is(key))
}

/// The option of the list that the word is.
pub fn option_named(rows: &[OptionRow], word: &[u8]) -> Option<OptionRow>
    ensures { result ≡ option_named rows.now word.now }
{
    rows.iter().copied().find(|row| row.key.spells(word))
}

// The fault of a word.
fn fault_of(name: CommandName, word: &[u8], role: Role) -> Option<Fault>
    ensures { result ≡ fault_of name word.now role }
{
    match role {
        Role::Stray => Some(Fault::BadOption),
        Role::Option(_) | Role::Flag(_) => None,
        Role::Value(row) => fault_in(row.kind, word),
        Role::Argument(number) => fault_in(name.argument(number)?, word),
    }
}

// The first fault, with one more word at this place.
fn first_fault(first: Option<(Fault, u64)>, next: Option<Fault>, place: u64) -> Option<(Fault, u64)>
    ensures { result ≡ first_fault first next place }
{
    match (first, next) {
        (Some(fault), _) => Some(fault),
        (None, Some(fault)) => Some((fault, place)),
        (None, None) => None,
    }
}
