//! The names of what legs lie on.
ghost use Rattle.std.specs.Prelude.{◌≡◌, [], map, slice_index_or};
ghost use Rattle.meta_print.specs.Layout as layout;

use meta_model::{Group, LvTable, On, PvTable};

// The name of what a leg lies on, empty where the group has no such volume.
pub(crate) fn name_of(group: &Group, on: On) -> &[u8]
    ensures { result.now ≡ layout.name_of group.now on }
{
    match on {
        On::Pv(number) => pv_name(&group.pvs, number as usize),
        On::Lv(number) => lv_name(&group.lvs, number as usize),
    }
}

fn pv_name(pvs: &PvTable, number: usize) -> &[u8]
    ensures { result.now ≡ slice_index_or (map (λ row. row.0) pvs.now) number [] }
{
    if number < pvs.len() {
        pvs.get(number).0.as_bytes()
    } else {
        &[]
    }
}

fn lv_name(lvs: &LvTable, number: usize) -> &[u8]
    ensures { result.now ≡ slice_index_or (map (λ row. row.0) lvs.now) number [] }
{
    if number < lvs.len() {
        lvs.get(number).0.as_bytes()
    } else {
        &[]
    }
}
