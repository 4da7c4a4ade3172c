//! The images that a crash may leave.
ghost use Rattle.std.specs.Prelude.{◌≡◌, ◌≤◌, ◌<◌, ℕ, [], ◌∷◌, drop, length, slice_index_or, vec_len, None, IfOk};
ghost use Rattle.dev_shelf.specs.ChosenImage.{chosen_values};
ghost use Rattle.dev_shelf.specs.DiskRow.{sizes_of};
ghost use Rattle.dev_shelf.specs.DiskRowInvariant.{IsGood};
ghost use Rattle.dev_shelf.specs.RowValues.{TakesDisks, TakesOne, TakesSectors, choices_left, is_touched, told_after};

use super::disk_row::DiskRow;
use super::numbers::next_of;
use super::touched::touched_sectors;
use super::values::{PossibleValue, values_at};
use sector_base::{Bytes512, Sectors};
use std::alloc::{AllocError, Global};

/// The disks that a crash after the first so many steps may leave, of each sector the value that the choices take.
pub fn disks_at(
    alloc: Global,
    row: &DiskRow,
    moment: usize,
    choices: &Vec<u64>,
) -> Result<Vec<Sectors>, AllocError>
    requires good { IsGood row.now }
    requires moment { moment ≤ vec_len row.now.steps }
    ensures { IfOk result (λ disks. (left : _) × TakesDisks (told_after row.now moment) (sizes_of row.now) (vec_len row.now.opened) choices.now.items disks.items left) }
{
    let mut disks = Vec::new(alloc);
    let mut taken = 0;
    for disk in 0..row.opened.len() {
        disks.push(sectors_at(alloc, row, moment, disk as u32, choices, &mut taken)?)?;
    }
    Ok(disks)
}

// The sectors of one disk, from the choice on that was taken last.
fn sectors_at(
    alloc: Global,
    row: &DiskRow,
    moment: usize,
    disk: u32,
    choices: &Vec<u64>,
    taken: &mut usize,
) -> Result<Sectors, AllocError>
    requires good { IsGood row.now }
    requires moment { moment ≤ vec_len row.now.steps }
    requires disk { disk < vec_len row.now.opened }
    ensures { IfOk result (λ sectors. TakesSectors (told_after row.now moment) disk (length (slice_index_or row.now.opened.items disk [])) (drop taken.old choices.now.items) sectors (drop taken.new choices.now.items)) }
{
    let touched = touched_sectors(alloc, row, moment, disk)?;
    let mut sectors = Vec::new(alloc);
    for sector in 0..row.opened[disk as usize].len() {
        let value = sector_at(
            alloc,
            row,
            moment,
            disk,
            sector as u64,
            touched[sector],
            choices,
            taken,
        )?;
        sectors.push(value)?;
    }
    Ok(Sectors::from_vec(sectors))
}

// The value of one sector: the opened one where no write has touched it.
fn sector_at(
    alloc: Global,
    row: &DiskRow,
    moment: usize,
    disk: u32,
    sector: u64,
    touched: bool,
    choices: &Vec<u64>,
    taken: &mut usize,
) -> Result<Bytes512, AllocError>
    requires good { IsGood row.now }
    requires moment { moment ≤ vec_len row.now.steps }
    requires disk { disk < vec_len row.now.opened }
    requires sector { sector < length (slice_index_or row.now.opened.items disk []) }
    requires touched { touched ≡ is_touched (told_after row.now moment).steps disk sector }
    ensures { IfOk result (λ value. TakesOne (told_after row.now moment) disk sector (drop taken.old choices.now.items) value (drop taken.new choices.now.items)) }
{
    if !touched {
        return Ok(row.opened[disk as usize].get(sector as usize));
    }
    let values = values_at(alloc, row, moment, disk, sector)?;
    Ok(choose(&values, choices, taken))
}

// The value that the next choice takes; where there is one value alone, no choice is used.
fn choose(values: &Vec<PossibleValue>, choices: &Vec<u64>, taken: &mut usize) -> Bytes512
    requires { 0 < vec_len values.now }
    ensures chosen_so { chosen_values (values.now.items ∷ []) (drop taken.old choices.now.items) ≡ result ∷ [] }
    ensures left { drop taken.new choices.now.items ≡ choices_left (values.now.items ∷ []) (drop taken.old choices.now.items) }
    ensures is_value { (k : ℕ) × (k < length values.now.items) × ((slice_index_or values.now.items k (None, [])).1 ≡ result) }
{
    let number = if values.len() > 1 {
        next_of(choices, taken)
    } else {
        0
    };
    values[number as usize % values.len()].1
}
