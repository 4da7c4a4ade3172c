//! Copies of a group and of what it holds.
ghost use Rattle.std.specs.Prelude.{◌≡◌, IfOk};

use crate::{Group, Lv, LvTable, Pv, SegKind, Segment, Table};
use sector_base::{ItemList, Text};
use std::alloc::{AllocError, Global};

/// What can be made again where there is memory for it.
pub trait TryCopy: Sized {
    /// The same again.
    ///
    /// # Errors
    ///
    /// Where memory is wanting.
    fn try_copy(&self, alloc: Global) -> Result<Self, AllocError>
        ensures { IfOk result (λ copy. copy ≡ self.now) };
}

impl Group {
    /// The same group again, all of it.
    ///
    /// # Errors
    ///
    /// Where memory is wanting.
    pub fn try_copy(&self, alloc: Global) -> Result<Group, AllocError>
        ensures { IfOk result (λ copy. copy ≡ self.now) }
    {
        Ok(Group {
            name: self.name.try_copy(alloc)?,
            id: self.id,
            seqno: self.seqno,
            status: self.status,
            extent_size: self.extent_size,
            max_lv: self.max_lv,
            max_pv: self.max_pv,
            copies: self.copies,
            pvs: copied_table(alloc, &self.pvs)?,
            lvs: self.lvs.try_copy(alloc)?,
        })
    }
}

impl TryCopy for Pv {
    fn try_copy(&self, alloc: Global) -> Result<Pv, AllocError> {
        Ok(Pv {
            id: self.id,
            device: copied_text(alloc, &self.device)?,
            allocatable: self.allocatable,
            missing: self.missing,
            dev_size: self.dev_size,
            pe_start: self.pe_start,
            pe_count: self.pe_count,
        })
    }
}

impl TryCopy for Lv {
    fn try_copy(&self, alloc: Global) -> Result<Lv, AllocError> {
        Ok(Lv {
            id: self.id,
            status: self.status,
            created: self.created,
            host: copied_text(alloc, &self.host)?,
            segments: ItemList::from_vec(copied_segments(alloc, self.segments.as_slice())?),
        })
    }
}

impl Segment {
    /// The same segment again, with its legs.
    ///
    /// # Errors
    ///
    /// Where memory is wanting.
    pub fn try_copy(&self, alloc: Global) -> Result<Segment, AllocError>
        ensures { IfOk result (λ copy. copy ≡ self.now) }
    {
        Ok(Segment {
            start: self.start,
            count: self.count,
            kind: self.kind.try_copy(alloc)?,
        })
    }
}

impl SegKind {
    fn try_copy(&self, alloc: Global) -> Result<SegKind, AllocError>
        ensures { IfOk result (λ copy. copy ≡ self.now) }
    {
        match self {
            SegKind::Striped { stripe, legs } => Ok(SegKind::Striped {
                stripe: *stripe,
                legs: ItemList::from_vec(Vec::from_slice(alloc, legs.as_slice())?),
            }),
            SegKind::Mirror {
                region,
                moved,
                legs,
            } => Ok(SegKind::Mirror {
                region: *region,
                moved: *moved,
                legs: ItemList::from_vec(Vec::from_slice(alloc, legs.as_slice())?),
            }),
        }
    }
}

pub(crate) fn copied_table<T: TryCopy + Drop>(
    alloc: Global,
    table: &Table<T>,
) -> Result<Table<T>, AllocError>
    ensures { IfOk result (λ copy. copy ≡ table.now) }
{
    let mut copy = Table::new(alloc);
    for number in 0..table.len() {
        let (name, row) = table.get(number);
        let name = name.try_copy(alloc)?;
        let row = row.try_copy(alloc)?;
        if copy.push(name, row).is_err() {
            return Err(AllocError);
        }
    }
    Ok(copy)
}

fn copied_segments(alloc: Global, segments: &[Segment]) -> Result<Vec<Segment>, AllocError>
    ensures { IfOk result (λ copies. copies.items ≡ segments.now) }
{
    let mut copies = Vec::with_capacity(alloc, segments.len())?;
    for segment in segments {
        copies.push(segment.try_copy(alloc)?)?;
    }
    Ok(copies)
}

fn copied_text(alloc: Global, text: &Text) -> Result<Text, AllocError>
    ensures { IfOk result (λ copy. copy ≡ text.now) }
{
    Ok(Text::from_vec(Vec::from_slice(alloc, text.as_bytes())?))
}
