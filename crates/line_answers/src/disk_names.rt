//! The names of the disks of a run.
ghost use Rattle.std.specs.Prelude.{◌≡◌, ◌≤◌, ◌<◌, ◌==◌, IfSome, ℕ, List, [], length, slice_index_or};
ghost use Rattle.command_table.specs.Options.{number_named, words_of};

use std::marker::Model;

/// Names of disks, in their order: disk 0 first. Contracts see it as the list of their bytes.
#[derive(Debug, Drop)]
pub struct DiskNames {
    names: Vec<String>,
}

impl Model for DiskNames {
    ghost Value = { List (List ℕ) };

    ghost view = { λ d. words_of d.names.items };
}

impl DiskNames {
    /// These names.
    pub fn from_vec(names: Vec<String>) -> Self
        ensures { result ≡ words_of names.items }
    {
        DiskNames { names }
    }

    /// All of them, as they are given to a file system.
    pub fn as_vec(&self) -> &Vec<String>
        ensures { words_of result.now.items ≡ self.now }
    {
        &self.names
    }

    /// How many they are.
    pub fn len(&self) -> usize
        ensures { result ≡ length self.now }
    {
        self.names.len()
    }

    /// Whether there are none.
    pub fn is_empty(&self) -> bool
        ensures { result ≡ (length self.now == 0) }
    {
        self.names.is_empty()
    }

    /// The bytes of the name of the disk with this number, none where it has none.
    pub fn bytes_of(&self, pv: u32) -> &[u8]
        ensures { result.now ≡ slice_index_or self.now pv [] }
    {
        match self.names.get(pv as usize) {
            Some(name) => name.as_bytes(),
            None => &[],
        }
    }

    /// The number of the disk with this name.
    pub fn number_of(&self, name: &[u8]) -> Option<u32>
        requires { length self.now ≤ 64 }
        ensures number { result ≡ number_named self.now name.now }
        ensures within { IfSome result (λ number. number < length self.now) }
    {
        let place = place_of(&self.names, name)?;
        Some(place as u32)
    }
}

// The place of the name among these.
fn place_of(names: &[String], name: &[u8]) -> Option<usize>
    ensures place { result ≡ number_named (words_of names.now) name.now }
    ensures within { IfSome result (λ place. place < length names.now) }
{
    for place in 0..names.len() {
        if names[place].as_bytes() == name {
            return Some(place);
        }
    }
    None
}
