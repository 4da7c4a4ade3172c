//! The options, whatever the command.
ghost use Rattle.std.specs.Prelude.{◌≡◌, [], ◌∷◌, false};
ghost use Rattle.std.specs.Str.{bytes_eq};
ghost use Rattle.std.specs.Option.{option_map_or};
ghost use Rattle.command_table.specs.Options.{is_key, letter_of, name_of, spells};

/// An option of lvm(8), of pvmove(8) or of the commands that are only here.
#[derive(Clone, Copy, Debug, PartialEq, Eq)]
pub enum OptionKey {
    Abort,
    Alloc,
    DiskThreads,
    Extents,
    MetadataCopies,
    Mirrors,
    Name,
    PhysicalExtentSize,
    Size,
    Status,
    Stripes,
    StripeSize,
    Through,
    Workers,
}

impl OptionKey {
    /// Its long spelling, without the two hyphens.
    pub fn name(self) -> &'static str
        ensures { result.now ≡ name_of self }
    {
        match self {
            OptionKey::Abort => "abort",
            OptionKey::Alloc => "alloc",
            OptionKey::DiskThreads => "disk-threads",
            OptionKey::Extents => "extents",
            OptionKey::MetadataCopies => "metadatacopies",
            OptionKey::Mirrors => "mirrors",
            OptionKey::Name => "name",
            OptionKey::PhysicalExtentSize => "physicalextentsize",
            OptionKey::Size => "size",
            OptionKey::Status => "status",
            OptionKey::Stripes => "stripes",
            OptionKey::StripeSize => "stripesize",
            OptionKey::Through => "through",
            OptionKey::Workers => "workers",
        }
    }

    /// Its letter, where it has one.
    pub fn letter(self) -> Option<u8>
        ensures { result ≡ letter_of self }
    {
        match self {
            OptionKey::Extents => Some(b'l'),
            OptionKey::Mirrors => Some(b'm'),
            OptionKey::Name => Some(b'n'),
            OptionKey::PhysicalExtentSize => Some(b's'),
            OptionKey::Size => Some(b'L'),
            OptionKey::Stripes => Some(b'i'),
            OptionKey::StripeSize => Some(b'I'),
            _ => None,
        }
    }

    /// Whether both are the same option.
    pub fn is(self, other: OptionKey) -> bool
        ensures { result ≡ is_key self other }
    {
        self.name() == other.name()
    }

    /// Whether the word is exactly this option, in its short or its long spelling.
    pub fn spells(self, word: &[u8]) -> bool
        ensures { result ≡ spells self word.now }
    {
        is_long(self.name().as_bytes(), word) || self.is_short(word)
    }

    // Whether the word is `-` and its letter.
    fn is_short(self, word: &[u8]) -> bool
        ensures { result ≡ option_map_or (λ letter. bytes_eq (45 ∷ letter ∷ []) word.now) (letter_of self) false }
    {
        match self.letter() {
            Some(letter) => word == [b'-', letter].as_slice(),
            None => false,
        }
    }
}

// Whether the word is `--` and this name.
fn is_long(name: &[u8], word: &[u8]) -> bool
    ensures { result ≡ bytes_eq (45 ∷ 45 ∷ name.now) word.now }
{
    match word {
        [b'-', b'-', rest @ ..] => name == rest,
        _ => false,
    }
}
