//! How large a volume is to be.

/// How large a volume is to be, as the words say it.
#[derive(Clone, Copy, Debug, PartialEq, Eq)]
pub enum Amount {
    /// So many extents.
    Extents(u64),
    /// So many sectors, rounded up to whole extents later.
    Sectors(u64),
}

/// What a volume grows to.
#[derive(Clone, Copy, Debug, PartialEq, Eq)]
pub enum Growth {
    /// It is to have so much.
    To(Amount),
    /// It is to have so much more.
    By(Amount),
}
