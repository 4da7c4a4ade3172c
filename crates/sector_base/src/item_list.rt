//! Lists that a public clause can name: of disks, areas, images.
ghost use Rattle.std.specs.Prelude.{◌≡◌, ◌<◌, length, slice_index_or};

use std::marker::Model;

/// A list of items, behind one name for each kind of item. Contracts see it as the list of what they see the items as.
#[derive(Debug, Drop)]
pub struct ItemList<T: Drop> {
    list: Vec<T>,
}

impl<T: Drop> Model for ItemList<T> {
    ghost use Rattle.std.specs.Prelude.{List};

    ghost Value = { List T };

    ghost view = { λ l. l.list.items };
}

impl<T: Drop> ItemList<T> {
    /// These items.
    pub fn from_vec(list: Vec<T>) -> Self
        ensures { result ≡ list.items }
    {
        ItemList { list }
    }

    /// Gives the items back.
    pub fn into_vec(self) -> Vec<T>
        ensures { result.items ≡ self }
    {
        self.list
    }

    /// All of them.
    pub fn as_slice(&self) -> &[T]
        ensures { result.now ≡ self.now }
    {
        &self.list
    }

    /// How many they are.
    pub fn len(&self) -> usize
        ensures { result ≡ length self.now }
    {
        self.list.len()
    }

    /// The item at this place.
    pub fn get(&self, at: usize) -> &T
        requires { at < length self.now }
        ensures { result.now ≡ slice_index_or self.now at result.now }
    {
        &self.list[at]
    }
}

/// A list of disk numbers: its entry i is the disk of the group's physical volume i. Contracts see it as the list.
pub type PvDisks = ItemList<u32>;
