//! Numbers by ids.
ghost use Rattle.std.specs.Prelude.{◌≡◌, OnErr, OnOk};
ghost use Rattle.std.specs.FinMap as map;

use lvm_id::LvmId;
use std::alloc::{AllocError, Global};
use std::collections::BTreeMap;
use std::marker::Model;

/// A number for each of some ids. Contracts see the finite map from ids to numbers.
#[derive(Debug, Drop)]
pub struct IdMap {
    numbers: BTreeMap<[u8; 32], u32>,
}

impl Model for IdMap {
    ghost use Rattle.std.specs.FinMap as map;
    ghost use Rattle.id_index.specs.Ids.{IdNumbers, id_numbers_code};

    ghost Value = { IdNumbers };

    ghost coded = { id_numbers_code };

    ghost view = { λ ids. map.from_entries ids.numbers.entries };
}

impl IdMap {
    /// One without ids.
    pub fn new(alloc: Global) -> Self
        ensures { result ≡ map.empty }
    {
        IdMap {
            numbers: BTreeMap::new(alloc),
        }
    }

    /// Puts a number at an id, in place of the one that is there.
    ///
    /// # Errors
    ///
    /// Where memory is wanting; all stays then.
    pub fn insert(&mut self, id: &LvmId, number: u32) -> Result<(), AllocError>
        ensures ok { OnOk result (self.new ≡ map.insert self.old id.now number) }
        ensures err { OnErr result (self.new ≡ self.old) }
    {
        self.numbers.insert(id.plain(), number)?;
        Ok(())
    }

    /// The number at an id, where there is one.
    pub fn get(&self, id: &LvmId) -> Option<u32>
        ensures { result ≡ map.get self.now id.now }
    {
        self.numbers.get(&id.plain()).copied()
    }

    /// Whether there is one.
    pub fn contains(&self, id: &LvmId) -> bool
        ensures { result ≡ map.contains_key self.now id.now }
    {
        self.get(id).is_some()
    }
}
