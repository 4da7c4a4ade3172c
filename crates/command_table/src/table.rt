//! The table of commands: the row of each, with its name, its words as a manual shows them, its options and its arguments.
ghost use Rattle.std.specs.Prelude.{◌≡◌};
ghost use Rattle.command_table.specs.Table.{argument_of, command_named, commands, first_arguments, is_for_scripts, is_for_scripts_alone, is_for_words, options_of, spelling_of, takes_disks};

use crate::{Kind, OptionKey};

/// A command of the table.
#[derive(Clone, Copy, Debug, PartialEq, Eq)]
pub enum CommandName {
    Pvcreate,
    Pvmove,
    Pvck,
    Pvs,
    Vgcreate,
    Vgextend,
    Vgreduce,
    Vgremove,
    Vgrename,
    Vgcfgbackup,
    Vgcfgrestore,
    Vgck,
    Vgs,
    Lvcreate,
    Lvextend,
    Lvreduce,
    Lvremove,
    Lvrename,
    Lvs,
    Session,
    Demo,
    Read,
    Fill,
    Write,
    Flush,
    List,
    Wait,
    Resync,
}

/// The commands, in the order in which they are listed to a user.
static COMMANDS: [CommandName; 28] = [
    CommandName::Pvcreate,
    CommandName::Pvmove,
    CommandName::Pvck,
    CommandName::Pvs,
    CommandName::Vgcreate,
    CommandName::Vgextend,
    CommandName::Vgreduce,
    CommandName::Vgremove,
    CommandName::Vgrename,
    CommandName::Vgcfgbackup,
    CommandName::Vgcfgrestore,
    CommandName::Vgck,
    CommandName::Vgs,
    CommandName::Lvcreate,
    CommandName::Lvextend,
    CommandName::Lvreduce,
    CommandName::Lvremove,
    CommandName::Lvrename,
    CommandName::Lvs,
    CommandName::Session,
    CommandName::Demo,
    CommandName::Read,
    CommandName::Fill,
    CommandName::Write,
    CommandName::Flush,
    CommandName::List,
    CommandName::Wait,
    CommandName::Resync,
];

/// An option of a command, and what its value has to be.
#[derive(Clone, Copy, Debug, PartialEq, Eq)]
pub struct OptionRow {
    pub key: OptionKey,
    pub kind: Kind,
}

const ANY_NUMBER: Kind = Kind::Number(0, u64::MAX);

const EXTENTS: Kind = Kind::Number(1, u64::MAX);

// Sizes stay below 2^48 sectors.
const MOST_SECTORS: u64 = 281_474_976_710_655;

// A size in MiB.
const SIZE: Kind = Kind::Size {
    unit: 2_048,
    least: 1,
    most: MOST_SECTORS,
};

static NO_OPTIONS: [OptionRow; 0] = [];

static PVCREATE: [OptionRow; 1] = [OptionRow {
    key: OptionKey::MetadataCopies,
    kind: Kind::Number(0, 2),
}];

static PVMOVE: [OptionRow; 1] = [OptionRow {
    key: OptionKey::Abort,
    kind: Kind::Flag,
}];

static VGCREATE: [OptionRow; 1] = [OptionRow {
    key: OptionKey::PhysicalExtentSize,
    kind: Kind::PowerSize {
        unit: 2_048,
        least: 8,
        most: 2_097_152,
    },
}];

static LVCREATE: [OptionRow; 7] = [
    OptionRow {
        key: OptionKey::Name,
        kind: Kind::Volume,
    },
    OptionRow {
        key: OptionKey::Extents,
        kind: EXTENTS,
    },
    OptionRow {
        key: OptionKey::Size,
        kind: SIZE,
    },
    OptionRow {
        key: OptionKey::Stripes,
        kind: Kind::Number(1, 8),
    },
    OptionRow {
        key: OptionKey::StripeSize,
        kind: Kind::PowerSize {
            unit: 2,
            least: 8,
            most: MOST_SECTORS,
        },
    },
    OptionRow {
        key: OptionKey::Mirrors,
        kind: Kind::Number(1, 7),
    },
    OptionRow {
        key: OptionKey::Alloc,
        kind: Kind::Policy,
    },
];

static LVEXTEND: [OptionRow; 2] = [
    OptionRow {
        key: OptionKey::Extents,
        kind: Kind::Growth(1, u64::MAX),
    },
    OptionRow {
        key: OptionKey::Size,
        kind: Kind::SizeGrowth {
            unit: 2_048,
            least: 1,
            most: MOST_SECTORS,
        },
    },
];

static LVREDUCE: [OptionRow; 2] = [
    OptionRow {
        key: OptionKey::Extents,
        kind: EXTENTS,
    },
    OptionRow {
        key: OptionKey::Size,
        kind: SIZE,
    },
];

static SESSION: [OptionRow; 3] = [
    OptionRow {
        key: OptionKey::Workers,
        kind: Kind::Number(1, 8),
    },
    OptionRow {
        key: OptionKey::DiskThreads,
        kind: Kind::Flag,
    },
    OptionRow {
        key: OptionKey::Status,
        kind: Kind::Flag,
    },
];

static THROUGH: [OptionRow; 1] = [OptionRow {
    key: OptionKey::Through,
    kind: Kind::Flag,
}];

static NO_ARGUMENTS: [Kind; 0] = [];

static ONE_DISK: [Kind; 1] = [Kind::Disk];

static ONE_GROUP: [Kind; 1] = [Kind::Group];

static ONE_PATH: [Kind; 1] = [Kind::Path];

static GROUP_AND_DISK: [Kind; 2] = [Kind::Group, Kind::Disk];

static GROUP_AND_NAME: [Kind; 2] = [Kind::Group, Kind::Group];

static GROUP_AND_VOLUMES: [Kind; 3] = [Kind::Group, Kind::Volume, Kind::Volume];

static DEMO: [Kind; 3] = [ANY_NUMBER, Kind::Number(1, 4_096), Kind::Number(1, 8)];

static READ: [Kind; 3] = [Kind::Path, ANY_NUMBER, Kind::Number(1, 128)];

static FILL: [Kind; 4] = [Kind::Path, ANY_NUMBER, Kind::Number(1, 128), ANY_NUMBER];

static WRITE: [Kind; 3] = [Kind::Path, ANY_NUMBER, Kind::Hex];

// What stands in the table of one command.
#[derive(Clone, Copy)]
struct CommandRow {
    spelling: &'static str,
    synopsis: &'static str,
    options: &'static [OptionRow],
    arguments: &'static [Kind],
}

fn row(
    spelling: &'static str,
    synopsis: &'static str,
    options: &'static [OptionRow],
    arguments: &'static [Kind],
) -> CommandRow
    ensures spelling { result.spelling.now ≡ spelling.now }
    ensures options { result.options.now ≡ options.now }
    ensures arguments { result.arguments.now ≡ arguments.now }
{
    CommandRow {
        spelling,
        synopsis,
        options,
        arguments,
    }
}

impl CommandName {
    /// All commands, in the order in which they are listed to a user.
    pub fn all() -> &'static [CommandName]
        ensures { result.now ≡ commands }
    {
        &COMMANDS
    }

    // Its row: the word that names it, the words that may follow, its options, and what its first arguments have to be.
    fn row(self) -> CommandRow
        ensures spelling { result.spelling.now ≡ spelling_of self }
        ensures options { result.options.now ≡ options_of self }
        ensures arguments { result.arguments.now ≡ first_arguments self }
    {
        match self {
            CommandName::Pvcreate => row(
                "pvcreate",
                "[--metadatacopies 0|1|2] PV",
                &PVCREATE,
                &ONE_DISK,
            ),
            CommandName::Pvmove => row("pvmove", "[PV [PV ...] | --abort]", &PVMOVE, &NO_ARGUMENTS),
            CommandName::Pvck => row("pvck", "PV", &NO_OPTIONS, &ONE_DISK),
            CommandName::Pvs => row("pvs", "", &NO_OPTIONS, &NO_ARGUMENTS),
            CommandName::Vgcreate => row(
                "vgcreate",
                "[-s SIZE] VG PV [PV ...]",
                &VGCREATE,
                &ONE_GROUP,
            ),
            CommandName::Vgextend => row("vgextend", "VG PV [PV ...]", &NO_OPTIONS, &ONE_GROUP),
            CommandName::Vgreduce => row("vgreduce", "VG PV", &NO_OPTIONS, &GROUP_AND_DISK),
            CommandName::Vgremove => row("vgremove", "VG", &NO_OPTIONS, &ONE_GROUP),
            CommandName::Vgrename => row("vgrename", "VG NEW", &NO_OPTIONS, &GROUP_AND_NAME),
            CommandName::Vgcfgbackup => row("vgcfgbackup", "VG", &NO_OPTIONS, &ONE_GROUP),
            CommandName::Vgcfgrestore => row("vgcfgrestore", "VG", &NO_OPTIONS, &ONE_GROUP),
            CommandName::Vgck => row("vgck", "", &NO_OPTIONS, &NO_ARGUMENTS),
            CommandName::Vgs => row("vgs", "", &NO_OPTIONS, &NO_ARGUMENTS),
            CommandName::Lvcreate => row(
                "lvcreate",
                "-n NAME (-l N | -L SIZE) [-i N [-I SIZE] | -m N] [--alloc contiguous|normal] VG [PV ...]",
                &LVCREATE,
                &ONE_GROUP,
            ),
            CommandName::Lvextend => row(
                "lvextend",
                "(-l [+]N | -L [+]SIZE) VG/LV [PV ...]",
                &LVEXTEND,
                &ONE_PATH,
            ),
            CommandName::Lvreduce => row(
                "lvreduce",
                "(-l N | -L SIZE) VG/LV",
                &LVREDUCE,
                &ONE_PATH,
            ),
            CommandName::Lvremove => row("lvremove", "VG/LV", &NO_OPTIONS, &ONE_PATH),
            CommandName::Lvrename => row("lvrename", "VG OLD NEW", &NO_OPTIONS, &GROUP_AND_VOLUMES),
            CommandName::Lvs => row("lvs", "", &NO_OPTIONS, &NO_ARGUMENTS),
            CommandName::Session => row(
                "session",
                "--workers W [--disk-threads] [--status] VG",
                &SESSION,
                &ONE_GROUP,
            ),
            CommandName::Demo => row("demo", "SEED LINES WORKERS", &NO_OPTIONS, &DEMO),
            CommandName::Read => row("read", "VG/LV START COUNT", &NO_OPTIONS, &READ),
            CommandName::Fill => row(
                "fill",
                "[--through] VG/LV START COUNT VALUE",
                &THROUGH,
                &FILL,
            ),
            CommandName::Write => row("write", "[--through] VG/LV START HEX", &THROUGH, &WRITE),
            CommandName::Flush => row("flush", "VG/LV", &NO_OPTIONS, &ONE_PATH),
            CommandName::List => row("list", "", &NO_OPTIONS, &NO_ARGUMENTS),
            CommandName::Wait => row("wait", "", &NO_OPTIONS, &NO_ARGUMENTS),
            CommandName::Resync => row("resync", "VG/LV", &NO_OPTIONS, &ONE_PATH),
        }
    }

    /// The word that names it.
    pub fn spelling(self) -> &'static str
        ensures { result.now ≡ spelling_of self }
    {
        self.row().spelling
    }

    /// The words that may follow its name, as a manual writes them: `[ ]` around words that may be left out, ` | ` between
    /// words of which one is chosen, `( )` around those of which one is needed, `...` behind a word that may stand again.
    pub fn synopsis(self) -> &'static str {
        self.row().synopsis
    }

    /// The options of the command.
    pub fn options(self) -> &'static [OptionRow]
        ensures { result.now ≡ options_of self }
    {
        self.row().options
    }

    // Whether any number of disks may follow its first arguments.
    fn takes_disks(self) -> bool
        ensures { result ≡ takes_disks self }
    {
        matches!(
            self,
            CommandName::Pvmove
                | CommandName::Vgcreate
                | CommandName::Vgextend
                | CommandName::Lvcreate
                | CommandName::Lvextend
        )
    }

    /// What the argument with this number, from 0, has to be. There is none past the last.
    pub fn argument(self, number: usize) -> Option<Kind>
        ensures { result ≡ argument_of self number }
    {
        match self.row().arguments.get(number) {
            Some(kind) => Some(*kind),
            None if self.takes_disks() => Some(Kind::Disk),
            None => None,
        }
    }

    /// Whether it stands in scripts.
    pub fn is_for_scripts(self) -> bool
        ensures { result ≡ is_for_scripts self }
    {
        match self {
            CommandName::Pvcreate
            | CommandName::Pvmove
            | CommandName::Vgextend
            | CommandName::Vgreduce
            | CommandName::Vgrename
            | CommandName::Lvcreate
            | CommandName::Lvextend
            | CommandName::Lvreduce
            | CommandName::Lvremove
            | CommandName::Lvrename => true,
            _ => self.is_for_scripts_alone(),
        }
    }

    /// Whether it stands on the command line.
    pub fn is_for_words(self) -> bool
        ensures { result ≡ is_for_words self }
    {
        !self.is_for_scripts_alone()
    }

    // Whether it stands in scripts alone.
    fn is_for_scripts_alone(self) -> bool
        ensures { result ≡ is_for_scripts_alone self }
    {
        matches!(
            self,
            CommandName::Read
                | CommandName::Fill
                | CommandName::Write
                | CommandName::Flush
                | CommandName::List
                | CommandName::Wait
                | CommandName::Resync
        )
    }

    /// The command that a word names.
    pub fn named(word: &[u8]) -> Option<CommandName>
        ensures { result ≡ command_named word.now }
    {
        COMMANDS
            .iter()
            .copied()
            .find(|name| name.spelling().as_bytes() == word)
    }
}
