//! The segments of a logical volume.
ghost use Rattle.std.specs.Prelude.{◌≡◌};
ghost use Rattle.meta_model.specs.Runs.{legs_of};

use sector_base::ItemList;

/// What a leg lies on, by its place in the text of the group.
#[derive(Clone, Copy, Debug, PartialEq, Eq)]
pub enum On {
    /// A physical volume.
    Pv(u32),
    /// A logical volume.
    Lv(u32),
}

/// A leg of a segment.
#[derive(Clone, Copy, Debug, PartialEq, Eq)]
pub struct Leg {
    pub on: On,
    /// Its first extent there.
    pub first: u64,
}

/// The legs of a segment, in their order. Contracts see the list of them.
pub type Legs = ItemList<Leg>;

/// The kind of a segment.
#[derive(Debug, Drop)]
pub enum SegKind {
    /// One leg, or data striped over several in pieces of so many sectors.
    Striped {
        stripe: u64,
        legs: Legs,
    },
    /// Copies, in regions of so many sectors. A segment of a move says how many extents were moved.
    Mirror {
        region: u64,
        moved: Option<u64>,
        legs: Legs,
    },
}

impl SegKind {
    /// The legs of the segment, in their order.
    pub fn legs(&self) -> &Legs
        ensures { result.now ≡ legs_of self.now }
    {
        match self {
            SegKind::Striped { legs, .. } => legs,
            SegKind::Mirror { legs, .. } => legs,
        }
    }
}

/// A segment of a logical volume.
#[derive(Debug, Drop)]
pub struct Segment {
    /// Its first extent in the volume.
    pub start: u64,
    /// How many extents it has.
    pub count: u64,
    pub kind: SegKind,
}

/// The segments of a volume, in their order. Contracts see the list of them.
pub type Segments = ItemList<Segment>;
