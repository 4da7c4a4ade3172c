//! What is known of a region's legs.
ghost use Rattle.std.specs.Prelude.{◌≡◌};

/// The state of a region of a mirror segment.
#[derive(Clone, Copy, Debug, Drop, PartialEq, Eq)]
pub enum Region {
    /// The legs may differ: it is read and written at the primary leg alone, and is still to be copied.
    Unsynced,
    /// It is being copied from the primary leg to the others.
    Copying,
    /// The legs agree: it is written at all of them.
    Synced,
}

impl Region {
    ghost use Rattle.region_log.specs.Regions.{is_unsynced};

    /// Whether its legs may differ and it isn't being copied.
    pub fn is_unsynced(self) -> bool
        ensures { result ≡ is_unsynced self }
    {
        match self {
            Region::Unsynced => true,
            Region::Copying | Region::Synced => false,
        }
    }
}
