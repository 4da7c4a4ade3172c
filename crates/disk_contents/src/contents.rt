//! What stands on a disk.
use mda_header::{HeaderEntry, MdaHeader, MdaRefusal};
use pv_header::{Extent, PvHeader, PvRefusal};
use pv_label::LabelRefusal;
use sector_base::ItemList;

/// A metadata area, and what stands in its header sector.
#[derive(Clone, Copy, Debug, Drop)]
pub struct AreaFound {
    pub area: Extent,
    /// Its header, or why the sector isn't the header of this area.
    pub header: Result<MdaHeader, MdaRefusal>,
    /// What the sector says of the committed text.
    pub entry: HeaderEntry,
}

/// The metadata areas of a physical volume, in the order of its header, with what stands in their header sectors.
/// Contracts see it as the list of these.
pub type AreasFound = ItemList<AreaFound>;

/// What stands in lvm2's sectors of a disk.
#[derive(Debug, Drop)]
pub enum PvFound {
    /// None of the first four sectors is a label.
    NoLabel(LabelRefusal),
    /// The label stands in this sector, without a header that can be read.
    NoHeader {
        label: u32,
        refusal: PvRefusal,
    },
    /// The label stands in this sector with a header, and each metadata area's header sector was read.
    Whole {
        label: u32,
        header: PvHeader,
        areas: AreasFound,
    },
}
