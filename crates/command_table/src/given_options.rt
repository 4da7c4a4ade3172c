//! The options of a command with their values.
ghost use Rattle.std.specs.Prelude.{◌≡◌, find, is_some, option_map};
ghost use Rattle.command_table.specs.Given.{amount_of, given_by, growth_by, growth_of, number, size};
ghost use Rattle.command_table.specs.Options.{is_key};

use crate::values::{has_plus, number_of, size_of, without_plus};
use crate::{Amount, Growth, OptionKey};

/// The options that stand among the words, each with its value, the empty word where it takes none.
#[derive(Debug, Drop)]
pub struct GivenOptions<'a> {
    pub pairs: &'a [(OptionKey, &'a [u8])],
}

impl<'a> GivenOptions<'a> {
    /// The value of an option.
    pub fn value(&self, key: OptionKey) -> Option<&'a [u8]>
        ensures { option_map (λ word. word.now) result ≡ given_by self.now key }
    {
        match pair_of(self.pairs, key) {
            Some(pair) => Some(pair.1),
            None => None,
        }
    }

    /// Whether the option stands there.
    pub fn has(&self, key: OptionKey) -> bool
        ensures { result ≡ is_some (given_by self.now key) }
    {
        self.value(key).is_some()
    }

    /// The number that is its value.
    pub fn number(&self, key: OptionKey) -> Option<u64>
        ensures { result ≡ number (given_by self.now) key }
    {
        number_of(self.value(key)?)
    }

    /// The size that is its value, in sectors, where a number without a letter counts `unit` sectors.
    pub fn size(&self, key: OptionKey, unit: u64) -> Option<u64>
        ensures { result ≡ size (given_by self.now) key unit }
    {
        size_of(self.value(key)?, unit)
    }

    /// How large a volume is to be: one of the options for extents and for a size.
    pub fn amount(&self) -> Option<Amount>
        ensures { result ≡ amount_of (given_by self.now) }
    {
        match (
            self.number(OptionKey::Extents),
            self.size(OptionKey::Size, 2_048),
        ) {
            (Some(extents), None) => Some(Amount::Extents(extents)),
            (None, Some(sectors)) => Some(Amount::Sectors(sectors)),
            _ => None,
        }
    }

    /// What a volume grows to.
    pub fn growth(&self) -> Option<Growth>
        ensures { result ≡ growth_of (given_by self.now) }
    {
        match (self.value(OptionKey::Extents), self.value(OptionKey::Size)) {
            (Some(word), None) => Some(growth_by(
                word,
                Amount::Extents(number_of(without_plus(word))?),
            )),
            (None, Some(word)) => Some(growth_by(
                word,
                Amount::Sectors(size_of(without_plus(word), 2_048)?),
            )),
            _ => None,
        }
    }
}

// So much, or so much more behind a `+`.
fn growth_by(word: &[u8], amount: Amount) -> Growth
    ensures { result ≡ growth_by word.now amount }
{
    if has_plus(word) {
        Growth::By(amount)
    } else {
        Growth::To(amount)
    }
}

// The first of the pairs with this option.
fn pair_of<'a>(pairs: &[(OptionKey, &'a [u8])], key: OptionKey) -> Option<(OptionKey, &'a [u8])>
    ensures { result ≡ find (λ pair. is_key pair.0 key) pairs.now }
{
    pairs.iter().copied().find(|pair| pair.0.is(key))
}
