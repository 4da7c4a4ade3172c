//! Records by their names, in the order of a text.
ghost use Rattle.std.specs.Prelude.{◌≡◌, ◌<◌, List, [], Some, length, nat_eq, position, slice_get};
ghost use Rattle.std.specs.Cmp.Lexicographic.{pointwise};
ghost use Rattle.lvm_name.specs.Names.{is_among};
ghost use Rattle.meta_model.specs.Tables.{names_of, NamesDiffer, Pushes};

use indexmap::IndexMap;
use lvm_name::VolumeName;
use std::alloc::Global;
use std::marker::Model;

/// Records by their names, in the order of a text. No name stands twice. Contracts see the list of pairs of a name and
/// a record.
#[derive(Debug, Drop)]
pub struct Table<T: Drop> {
    rows: IndexMap<VolumeName, T>,
}

impl<T: Drop> Model for Table<T> {
    ghost use Rattle.std.specs.Prelude.{ℕ, List};

    ghost Value = { List (List ℕ × T) };

    ghost view = { λ table. table.rows.entries };
}

/// Why a record isn't pushed.
#[derive(Debug, Drop)]
pub enum PushRefusal {
    /// Memory was wanting.
    NoMemory,
    /// The name stands already. It is given back.
    Taken(VolumeName),
}

impl<T: Drop> Table<T> {
    /// One without records.
    pub fn new(alloc: Global) -> Self
        ensures { result ≡ [] }
    {
        Table {
            rows: IndexMap::new(alloc),
        }
    }

    /// How many records it has. Their names differ.
    pub fn len(&self) -> usize
        ensures count { result ≡ length self.now }
        ensures distinct { NamesDiffer self.now }
    {
        self.rows.len()
    }

    /// The record with this number, counted from 0, and its name.
    pub fn get(&self, number: usize) -> (&VolumeName, &T)
        requires { number < length self.now }
        ensures { slice_get self.now number ≡ Some (result.0.now, result.1.now) }
    {
        match self.rows.get_index(number) {
            Some(row) => row,
            None => unreachable!(),
        }
    }

    /// Whether a record has the name.
    pub fn contains(&self, name: &VolumeName) -> bool
        ensures { result ≡ is_among (names_of self.now) name.now }
    {
        self.rows.contains_key(name)
    }

    /// The number of the record with this name. It is found without looking along the records.
    pub fn position(&self, name: &VolumeName) -> Option<usize>
        ensures { result ≡ position (pointwise nat_eq name.now) (names_of self.now) }
    {
        self.rows.get_index_of(name)
    }

    /// Puts a record behind the others.
    ///
    /// # Errors
    ///
    /// `Taken` exactly where the name stands already, and `NoMemory` where memory is wanting. Then all stays.
    pub fn push(&mut self, name: VolumeName, row: T) -> Result<(), PushRefusal>
        ensures { Pushes self.old name row result self.new }
    {
        if self.contains(&name) {
            return Err(PushRefusal::Taken(name));
        }
        match self.rows.insert(name, row) {
            Ok(_) => Ok(()),
            Err(_) => Err(PushRefusal::NoMemory),
        }
    }
}
