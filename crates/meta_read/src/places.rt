//! What carries a name in the legs of a text.
ghost use Rattle.std.specs.Prelude.{◌≡◌, ℕ, List, [], Some, None, OnOk, IfOk, position, option_map, if◌then◌else◌, nat_eq};
ghost use Rattle.std.specs.Option.{option_or};
ghost use Rattle.std.specs.Cmp.Lexicographic.{pointwise};
ghost use Rattle.meta_model.specs.declared.segment.On.TheVariants as on_kinds;
ghost use Rattle.meta_model.specs.Standing.{Names, on_named};
ghost use Rattle.meta_read.specs.Places.{place_in, names_in};

use crate::sections::NamedSection;
use indexmap::IndexMap;
use meta_model::On;
use std::alloc::{AllocError, Global};
use std::marker::Model;

/// What carries each name. Contracts see the names of the physical and of the logical volumes.
#[derive(Drop)]
pub(crate) struct Places<'a> {
    pvs: &'a [NamedSection<'a>],
    lvs: &'a [NamedSection<'a>],
    on: IndexMap<&'a [u8], On>,
}

impl<'a> Model for Places<'a> {
    ghost use Rattle.meta_model.specs.Standing.{Names};
    ghost use Rattle.meta_read.specs.Places.{names_in, FindsNames};

    ghost Value = { Names };

    ghost view = { λ places. record { pvs = names_in places.pvs.now; lvs = names_in places.lvs.now } };

    ghost invariant = { λ places. FindsNames (record { pvs = names_in places.pvs.now; lvs = names_in places.lvs.now }) places.on.entries };
}

impl<'a> Places<'a> {
    /// The names of these sections. More than a number of 32 bits can count are want of memory.
    pub(crate) fn new(
        alloc: Global,
        pvs: &'a [NamedSection<'a>],
        lvs: &'a [NamedSection<'a>],
    ) -> Result<Self, AllocError>
        ensures { IfOk result (λ places. places ≡ record { pvs = names_in pvs.entry.now; lvs = names_in lvs.entry.now }) }
    {
        let mut on = IndexMap::new(alloc);
        add_pvs(&mut on, pvs)?;
        add_lvs(&mut on, lvs)?;
        Ok(Places { pvs, lvs, on })
    }

    /// What carries the name: the first physical volume with it, and where none has it the first logical one.
    pub(crate) fn find(&self, name: &[u8]) -> Option<On>
        ensures { result ≡ on_named self.now name.now }
    {
        self.on.get(name).copied()
    }
}

// The names of physical volumes, behind those that stand.
fn add_pvs<'a>(
    on: &mut IndexMap<&'a [u8], On>,
    pvs: &'a [NamedSection<'a>],
) -> Result<(), AllocError>
    ensures { OnOk result ((q : List ℕ) → place_in on.new.entries q ≡ option_or (place_in on.old.entries q) (option_map (λ number. on_kinds.Pv number) (position (pointwise nat_eq q) (names_in pvs.entry.now)))) }
{
    for (number, (name, _)) in pvs.iter().enumerate() {
        match u32::try_from(number) {
            Ok(number) => add(on, name, On::Pv(number))?,
            Err(_) => return Err(AllocError),
        }
    }
    Ok(())
}

// The names of logical volumes, behind those that stand.
fn add_lvs<'a>(
    on: &mut IndexMap<&'a [u8], On>,
    lvs: &'a [NamedSection<'a>],
) -> Result<(), AllocError>
    ensures { OnOk result ((q : List ℕ) → place_in on.new.entries q ≡ option_or (place_in on.old.entries q) (option_map (λ number. on_kinds.Lv number) (position (pointwise nat_eq q) (names_in lvs.entry.now)))) }
{
    for (number, (name, _)) in lvs.iter().enumerate() {
        match u32::try_from(number) {
            Ok(number) => add(on, name, On::Lv(number))?,
            Err(_) => return Err(AllocError),
        }
    }
    Ok(())
}

// A name with what carries it, unless it stands already.
fn add<'a>(on: &mut IndexMap<&'a [u8], On>, name: &'a [u8], carrier: On) -> Result<(), AllocError>
    ensures { OnOk result ((q : List ℕ) → place_in on.new.entries q ≡ option_or (place_in on.old.entries q) (if pointwise nat_eq q name.entry.now then Some carrier else None)) }
{
    if on.contains_key(name) {
        return Ok(());
    }
    match on.insert(name, carrier) {
        Ok(_) => Ok(()),
        Err(_) => Err(AllocError),
    }
}
