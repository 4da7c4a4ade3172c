//! What the words of a command mean.
ghost use Rattle.std.specs.Prelude.{◌≡◌};
ghost use Rattle.command_table.specs.Commands.{changes, draws, sectors_of};

use crate::{Amount, Growth};
use sector_base::{ItemList, Text};

/// Names of disks or volumes, in their order.
pub type Names = ItemList<Text>;

/// A logical volume, by the name of its group and its own.
#[derive(Debug, Drop)]
pub struct Path {
    pub vg: Text,
    pub lv: Text,
}

/// What pvmove does.
#[derive(Debug, Drop)]
pub enum Moving {
    /// Empties the disk of this name, onto these disks where there are some.
    From { pv: Text, onto: Names },
    /// Goes on with the move that stands.
    GoOn,
    /// Ends the move that stands, and keeps what was not copied where it is.
    Abort,
}

/// What lvcreate makes.
#[derive(Debug, Drop)]
pub struct NewVolume {
    pub vg: Text,
    pub lv: Text,
    pub amount: Amount,
    /// How many stripes, 1 to 8.
    pub stripes: u64,
    /// The sectors of a stripe's piece.
    pub stripe_size: u64,
    /// How many further legs, 0 to 7.
    pub mirrors: u64,
    /// All of it in one run of extents.
    pub contiguous: bool,
    /// The disks to take extents of, all of them where there are none.
    pub pvs: Names,
}

/// A command with its arguments: what lvm(8) takes from the words, and nothing else.
#[derive(Debug, Drop)]
pub enum Command {
    /// Creates a physical volume on the disk of this name, with so many copies of the metadata, 0 to 2.
    Pvcreate {
        pv: Text,
        metadata_copies: u64,
    },
    /// Moves extents from one disk to others.
    Pvmove(Moving),
    /// Reports what stands on the disk of this name.
    Pvck {
        pv: Text,
    },
    /// Lists the physical volumes.
    Pvs,
    /// Creates a group of these disks, with extents of so many sectors.
    Vgcreate {
        vg: Text,
        extent_size: u64,
        pvs: Names,
    },
    /// Adds these disks to the group.
    Vgextend {
        vg: Text,
        pvs: Names,
    },
    /// Takes the disk out of the group.
    Vgreduce {
        vg: Text,
        pv: Text,
    },
    /// Removes the group.
    Vgremove {
        vg: Text,
    },
    /// Gives the group another name.
    Vgrename {
        vg: Text,
        new: Text,
    },
    /// Prints the metadata of the group, as a backup.
    Vgcfgbackup {
        vg: Text,
    },
    /// Takes the group back from a backup, this text.
    Vgcfgrestore {
        vg: Text,
        text: Text,
    },
    /// Checks the metadata.
    Vgck,
    /// Lists the group.
    Vgs,
    /// Creates a logical volume.
    Lvcreate(NewVolume),
    /// Makes a volume longer, with extents of these disks where there are some.
    Lvextend {
        path: Path,
        growth: Growth,
        pvs: Names,
    },
    /// Makes a volume shorter.
    Lvreduce {
        path: Path,
        amount: Amount,
    },
    /// Removes a volume.
    Lvremove {
        path: Path,
    },
    /// Gives a volume another name.
    Lvrename {
        vg: Text,
        old: Text,
        new: Text,
    },
    /// Lists the logical volumes.
    Lvs,
    /// Reads so many sectors of a volume.
    Read {
        path: Path,
        start: u64,
        count: u64,
    },
    /// Fills so many sectors with numbers, from this one on, and through to the disks where that is asked for.
    Fill {
        path: Path,
        start: u64,
        count: u64,
        value: u64,
        through: bool,
    },
    /// Writes sectors of these contents, in hex digits, and through to the disks where that is asked for.
    Write {
        path: Path,
        start: u64,
        hex: Text,
        through: bool,
    },
    /// Makes sure that what was written to a volume lasts.
    Flush {
        path: Path,
    },
    /// Lists the volumes with their lengths.
    List,
    /// Waits until all lines before it are answered.
    Wait,
    /// Makes the legs of a mirror alike again.
    Resync {
        path: Path,
    },
}

impl Command {
    /// Whether it draws the id of what it creates.
    pub fn draws(&self) -> bool
        ensures { result ≡ draws self.now }
    {
        match self {
            Command::Pvcreate { .. }
            | Command::Vgcreate { .. }
            | Command::Lvcreate(_)
            | Command::Pvmove(Moving::From { .. }) => true,
            _ => false,
        }
    }

    /// Whether it changes something on its disks.
    pub fn changes(&self) -> bool
        ensures { result ≡ changes self.now }
    {
        match self {
            Command::Pvck { .. }
            | Command::Pvs
            | Command::Vgcfgbackup { .. }
            | Command::Vgck
            | Command::Vgs
            | Command::Lvs
            | Command::Read { .. }
            | Command::Flush { .. }
            | Command::List
            | Command::Wait => false,
            _ => true,
        }
    }

    /// The sectors that it reads or writes of a volume.
    pub fn sectors(&self) -> u64
        ensures { result ≡ sectors_of self.now }
    {
        match self {
            Command::Read { count, .. } | Command::Fill { count, .. } => *count,
            Command::Write { hex, .. } => hex.as_bytes().len() as u64 / 1_024,
            _ => 0,
        }
    }
}
