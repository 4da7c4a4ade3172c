//! What a word in a place has to be.

/// What a word in the place of a value or an argument has to be.
#[derive(Clone, Copy, Debug, PartialEq, Eq)]
pub enum Kind {
    /// Nothing: the option takes no value.
    Flag,
    /// A number from the first to the second.
    Number(u64, u64),
    /// The same, or how many more behind a `+`.
    Growth(u64, u64),
    /// A size of so many sectors, from the first to the second. Without a letter it counts this many sectors.
    Size { unit: u64, least: u64, most: u64 },
    /// The same, or how much more behind a `+`.
    SizeGrowth { unit: u64, least: u64, most: u64 },
    /// The same as `Size`, and a power of two.
    PowerSize { unit: u64, least: u64, most: u64 },
    /// `contiguous` or `normal`.
    Policy,
    /// A disk's name: 1 to 127 bytes from `!` to `~`.
    Disk,
    /// The name of a volume group.
    Group,
    /// The name of a logical volume that users may give.
    Volume,
    /// The names of a group and of such a volume, with `/` between.
    Path,
    /// The contents of sectors: 1,024 hex digits for each of 1 to 8.
    Hex,
}
