//! The volumes of a group by their names.
ghost use Rattle.std.specs.Prelude.{◌≡◌, ◌≤◌, ◌<◌, ◌+◌, List, [], Some, IfOk, OnOk, length, nat_eq, position, slice_get, vec_len};
ghost use Rattle.std.specs.Cmp.Lexicographic.{pointwise};
ghost use Rattle.lvm_name.specs.Names.{is_among};
ghost use Rattle.meta_model.specs.Runs.{room_of, run_room};
ghost use Rattle.meta_model.specs.Tables.{names_of, NamesDiffer, Pushes};

use crate::copies::copied_table;
use crate::{ExtentSpan, Lv, PushRefusal, Pv, Table};
use lvm_name::VolumeName;
use std::alloc::{AllocError, Global};
use std::marker::Model;

// What stands where no run was put.
const NO_RUN: ExtentSpan = ExtentSpan {
    on: 0,
    first: 0,
    count: 0,
};

/// The physical volumes of a group. Contracts see the list of pairs of a name and a record.
pub type PvTable = Table<Pv>;

/// The rows of a table of logical volumes.
pub type LvRows = Table<Lv>;

/// The logical volumes of a group. Contracts see the list of pairs of a name and a record. Beside them it has room for a
/// run for each leg and each volume, so that a check can sort them without taking memory.
#[derive(Debug, Drop)]
pub struct LvTable {
    rows: LvRows,
    runs: Vec<ExtentSpan>,
}

impl Model for LvTable {
    ghost use Rattle.std.specs.Prelude.{ℕ, List, ◌≤◌, vec_len};
    ghost use Rattle.meta_model.specs.declared.lv.Lv.{Lv};
    ghost use Rattle.meta_model.specs.Runs.{run_room};

    ghost Value = { List (List ℕ × Lv) };

    ghost view = { λ table. table.rows };

    ghost invariant = { λ table. run_room table.rows ≤ vec_len table.runs };
}

impl LvTable {
    /// One without volumes.
    pub fn new(alloc: Global) -> Self
        ensures { result ≡ [] }
    {
        LvTable {
            rows: Table::new(alloc),
            runs: Vec::new(alloc),
        }
    }

    /// One without volumes, and with room for so many runs besides, so that a check can sort as many physical volumes.
    ///
    /// # Errors
    ///
    /// Where memory is wanting.
    pub fn with_room(alloc: Global, pvs: usize) -> Result<Self, AllocError>
        ensures { IfOk result (λ table. table ≡ []) }
    {
        let mut runs = Vec::new(alloc);
        runs.resize(pvs, NO_RUN)?;
        Ok(LvTable {
            rows: Table::new(alloc),
            runs,
        })
    }

    /// Its rows.
    pub fn rows(&self) -> &LvRows
        ensures { result.now ≡ self.now }
    {
        &self.rows
    }

    /// How many volumes it has. Their names differ.
    pub fn len(&self) -> usize
        ensures count { result ≡ length self.now }
        ensures distinct { NamesDiffer self.now }
    {
        self.rows.len()
    }

    /// The volume with this number, counted from 0, and its name.
    pub fn get(&self, number: usize) -> (&VolumeName, &Lv)
        requires { number < length self.now }
        ensures { slice_get self.now number ≡ Some (result.0.now, result.1.now) }
    {
        self.rows.get(number)
    }

    /// Whether a volume has the name.
    pub fn contains(&self, name: &VolumeName) -> bool
        ensures { result ≡ is_among (names_of self.now) name.now }
    {
        self.rows.contains(name)
    }

    /// The number of the volume with this name. It is found without looking along the volumes.
    pub fn position(&self, name: &VolumeName) -> Option<usize>
        ensures { result ≡ position (pointwise nat_eq name.now) (names_of self.now) }
    {
        self.rows.position(name)
    }

    /// Puts a volume behind the others.
    ///
    /// # Errors
    ///
    /// `Taken` exactly where the name stands already, and `NoMemory` where memory is wanting. Then all stays.
    pub fn push(&mut self, name: VolumeName, lv: Lv) -> Result<(), PushRefusal>
        ensures { Pushes self.old name lv result self.new }
    {
        if make_room(&mut self.runs, &lv).is_err() {
            return Err(PushRefusal::NoMemory);
        }
        self.rows.push(name, lv)
    }

    // The same table again.
    pub(crate) fn try_copy(&self, alloc: Global) -> Result<Self, AllocError>
        ensures { IfOk result (λ copy. copy ≡ self.now) }
    {
        let rows = copied_table(alloc, &self.rows)?;
        let mut runs = Vec::new(alloc);
        runs.resize(self.runs.len(), NO_RUN)?;
        Ok(LvTable { rows, runs })
    }

    // The runs are lent by value, since a check reads the volumes while it writes runs, and what is lent by reference could
    // be replaced by something shorter.

    /// The volumes, and room for a run for each leg and each volume. What the runs are isn't said.
    pub fn into_parts(self) -> (LvRows, Vec<ExtentSpan>)
        ensures rows { result.0 ≡ self }
        ensures room { run_room self ≤ vec_len result.1 }
    {
        (self.rows, self.runs)
    }

    /// The table of these volumes, with that room.
    pub fn from_parts(rows: LvRows, runs: Vec<ExtentSpan>) -> Self
        requires { run_room rows ≤ vec_len runs }
        ensures { result ≡ rows }
    {
        LvTable { rows, runs }
    }
}

// Room for the runs of one more volume. It only grows.
fn make_room(runs: &mut Vec<ExtentSpan>, lv: &Lv) -> Result<(), AllocError>
    ensures grown { OnOk result (vec_len runs.new ≡ vec_len runs.old + room_of lv.now) }
    ensures kept { vec_len runs.old ≤ vec_len runs.new }
{
    push_runs(runs, 1)?;
    for segment in lv.segments.as_slice() {
        push_runs(runs, segment.kind.legs().len())?;
    }
    Ok(())
}

// So many runs more.
fn push_runs(runs: &mut Vec<ExtentSpan>, count: usize) -> Result<(), AllocError>
    ensures grown { OnOk result (vec_len runs.new ≡ vec_len runs.old + count) }
    ensures kept { vec_len runs.old ≤ vec_len runs.new }
{
    for _ in 0..count {
        push_run(runs)?;
    }
    Ok(())
}

// One run more. The vector grows by an eighth.
fn push_run(runs: &mut Vec<ExtentSpan>) -> Result<(), AllocError>
    ensures grown { OnOk result (vec_len runs.new ≡ vec_len runs.old + 1) }
    ensures kept { vec_len runs.old ≤ vec_len runs.new }
{
    if runs.len() == runs.capacity() {
        runs.reserve_exact(runs.len() / 8 + 1)?;
    }
    runs.push(NO_RUN)?;
    Ok(())
}
