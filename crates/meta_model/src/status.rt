//! The status words of a group and of a logical volume, as sets of flags.
ghost use Rattle.std.specs.Prelude.{⊤, ◌≡◌, [], ◌∷◌, codes};
ghost use Rattle.meta_model.specs.Status.{vg_status_of, lv_status_of};

use bitflags::{Flag, Flags, bitflag_items};
use std::marker::Model;

/// A set of status words of a volume group.
#[derive(Clone, Copy, Debug, PartialEq, Eq)]
pub struct VgWords(u8);

/// A set of status words of a logical volume.
#[derive(Clone, Copy, Debug, PartialEq, Eq)]
pub struct LvWords(u8);

bitflag_items! {
    impl VgWords: u8 {
        /// Physical volumes may be added and taken away.
        const RESIZEABLE = 1;
        /// It may be read.
        const READ = 2;
        /// It may be changed, and its volumes written.
        const WRITE = 4;
    }

    impl LvWords: u8 {
        /// It may be read.
        const READ = 1;
        /// It may be written.
        const WRITE = 2;
        /// Users see it.
        const VISIBLE = 4;
        /// Its device number is fixed.
        const FIXED_MINOR = 8;
        /// It is the volume of a move.
        const PVMOVE = 16;
        /// It is locked by a move.
        const LOCKED = 32;
        /// Its legs need not agree.
        const NOTSYNCED = 64;
    }
}

impl Flags for VgWords {
    type Bits = u8;

    ghost exact = { ⊤ };

    ghost table = { (codes "RESIZEABLE", 1) ∷ (codes "READ", 2) ∷ (codes "WRITE", 4) ∷ [] };

    ghost set_of = { λ words. words.0 };

    fn flags<'a>() -> &'a [Flag<VgWords>] {
        VgWords::FLAGS
    }

    fn bits(&self) -> u8 {
        self.0
    }

    fn from_bits_retain(bits: u8) -> VgWords {
        VgWords(bits)
    }
}

impl Flags for LvWords {
    type Bits = u8;

    ghost exact = { ⊤ };

    ghost table = { (codes "READ", 1) ∷ (codes "WRITE", 2) ∷ (codes "VISIBLE", 4) ∷ (codes "FIXED_MINOR", 8) ∷ (codes "PVMOVE", 16) ∷ (codes "LOCKED", 32) ∷ (codes "NOTSYNCED", 64) ∷ [] };

    ghost set_of = { λ words. words.0 };

    fn flags<'a>() -> &'a [Flag<LvWords>] {
        LvWords::FLAGS
    }

    fn bits(&self) -> u8 {
        self.0
    }

    fn from_bits_retain(bits: u8) -> LvWords {
        LvWords(bits)
    }
}

/// The status of a volume group: a set of words that has no other bits. Contracts see which words it has.
#[derive(Clone, Copy, Debug, PartialEq, Eq)]
pub struct VgStatus {
    words: VgWords,
}

impl Model for VgStatus {
    ghost use Rattle.std.specs.Prelude.{◌<◌};
    ghost use Rattle.meta_model.specs.Status.{VgStatus, vg_status_of, vg_bits};
    ghost use Rattle.meta_model.specs.StatusBits.{vg_bits-again};

    ghost Value = { VgStatus };

    ghost view = { λ status. vg_status_of status.words.0 };

    ghost invariant = { λ status. status.words.0 < 8 };

    ghost inverse = { λ status. record { words = record { 0 = vg_bits status } } };

    ghost inverse_ok = { λ status h i. record { words = record { 0 = vg_bits-again status.words.0 h i } } };
}

/// The status of a logical volume: a set of words that has no other bits. Contracts see which words it has.
#[derive(Clone, Copy, Debug, PartialEq, Eq)]
pub struct LvStatus {
    words: LvWords,
}

impl Model for LvStatus {
    ghost use Rattle.std.specs.Prelude.{◌<◌};
    ghost use Rattle.meta_model.specs.Status.{LvStatus, lv_status_of, lv_bits};
    ghost use Rattle.meta_model.specs.StatusBits.{lv_bits-again};

    ghost Value = { LvStatus };

    ghost view = { λ status. lv_status_of status.words.0 };

    ghost invariant = { λ status. status.words.0 < 128 };

    ghost inverse = { λ status. record { words = record { 0 = lv_bits status } } };

    ghost inverse_ok = { λ status h i. record { words = record { 0 = lv_bits-again status.words.0 h i } } };
}

impl VgStatus {
    /// The status that has these words.
    pub fn of(words: VgWords) -> VgStatus
        ensures { result ≡ vg_status_of words.0 }
    {
        VgStatus {
            words: VgWords::from_bits_truncate(words.bits()),
        }
    }

    /// Whether physical volumes may be added and taken away.
    pub fn is_resizeable(self) -> bool
        ensures { result ≡ self.resizeable }
    {
        self.words.contains(VgWords::RESIZEABLE)
    }

    /// Whether it may be read.
    pub fn is_readable(self) -> bool
        ensures { result ≡ self.read }
    {
        self.words.contains(VgWords::READ)
    }

    /// Whether it may be changed, and its volumes written.
    pub fn is_writable(self) -> bool
        ensures { result ≡ self.write }
    {
        self.words.contains(VgWords::WRITE)
    }
}

impl LvStatus {
    /// The status that has these words.
    pub fn of(words: LvWords) -> LvStatus
        ensures { result ≡ lv_status_of words.0 }
    {
        LvStatus {
            words: LvWords::from_bits_truncate(words.bits()),
        }
    }

    /// Whether it may be read.
    pub fn is_readable(self) -> bool
        ensures { result ≡ self.read }
    {
        self.words.contains(LvWords::READ)
    }

    /// Whether it may be written.
    pub fn is_writable(self) -> bool
        ensures { result ≡ self.write }
    {
        self.words.contains(LvWords::WRITE)
    }

    /// Whether users see it.
    pub fn is_visible(self) -> bool
        ensures { result ≡ self.visible }
    {
        self.words.contains(LvWords::VISIBLE)
    }

    /// Whether its device number is fixed.
    pub fn is_fixed_minor(self) -> bool
        ensures { result ≡ self.fixed_minor }
    {
        self.words.contains(LvWords::FIXED_MINOR)
    }

    /// Whether it is the volume of a move.
    pub fn is_pvmove(self) -> bool
        ensures { result ≡ self.pvmove }
    {
        self.words.contains(LvWords::PVMOVE)
    }

    /// Whether it is locked by a move.
    pub fn is_locked(self) -> bool
        ensures { result ≡ self.locked }
    {
        self.words.contains(LvWords::LOCKED)
    }

    /// Whether its legs need not agree.
    pub fn is_notsynced(self) -> bool
        ensures { result ≡ self.notsynced }
    {
        self.words.contains(LvWords::NOTSYNCED)
    }
}
