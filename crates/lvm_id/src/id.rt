//! One id.
ghost use Rattle.std.specs.Prelude.{◌≡◌, ◌≤◌, ◌<◌, ◌+◌, ◌++◌, ℕ, List, [], ◌∷◌, length, All, Some};
ghost use Rattle.std.specs.Fmt.{padded};
ghost use Rattle.lvm_id.specs.LvmId.{IsId, IsIdChar, hyphen_form, digit_char, word_chars, id_of_words};

use crate::Words64;
use crate::put::put;
use std::marker::Model;
use std::{fmt, str};

/// The id of a physical volume, a volume group or a logical volume. Contracts see the list of its 32 characters.
#[derive(Clone, Copy, Debug, Drop, PartialEq, Eq)]
pub struct LvmId {
    chars: [u8; 32],
}

impl Model for LvmId {
    ghost Value = { List ℕ };

    ghost view = { λ id. id.chars };

    ghost invariant = { λ id. All IsIdChar id.chars };

    ghost inverse = { λ chars. record { chars = chars } };
}

impl LvmId {
    // The id of these characters.
    pub(crate) fn new(chars: [u8; 32]) -> Self
        requires { All IsIdChar chars }
        ensures { result ≡ chars }
    {
        LvmId { chars }
    }

    /// Draws four numbers, of which each gives eight characters: its digits in base 62, the lowest first.
    pub fn from_words<N: Words64>(words: &mut N) -> Self
        ensures drawn { result ≡ id_of_words (N.upcoming words.old 4) }
        ensures moved_on { (n : ℕ) → N.upcoming words.old (4 + n) ≡ N.upcoming words.old 4 ++ N.upcoming words.new n }
        ensures valid { IsId result }
    {
        let first = words.next();
        let second = words.next();
        let third = words.next();
        let fourth = words.next();
        of_four(first, second, third, fourth)
    }

    /// The 32 characters, as they are stored.
    pub fn plain(&self) -> [u8; 32]
        ensures value { result ≡ self.now }
        ensures valid { IsId self.now }
    {
        self.chars
    }

    /// The id as it prints, in groups of 6, 4, 4, 4, 4, 4 and 6 characters with hyphens between.
    pub fn hyphen(&self) -> [u8; 38]
        ensures value { result ≡ hyphen_form self.now }
        ensures valid { IsId self.now }
    {
        let chars = &self.chars;
        let mut text = [b'-'; 38];
        put(&mut text, 0, &chars[0..6]);
        put(&mut text, 7, &chars[6..10]);
        put(&mut text, 12, &chars[10..14]);
        put(&mut text, 17, &chars[14..18]);
        put(&mut text, 22, &chars[18..22]);
        put(&mut text, 27, &chars[22..26]);
        put(&mut text, 32, &chars[26..32]);
        text
    }
}

/// Prints the id in groups.
impl fmt::Display for LvmId {
    ghost output = { λ id. Some (hyphen_form id) };

    ghost styled_output = { λ id spec. Some (padded spec (hyphen_form id)) };

    fn fmt<W: fmt::Write>(&self, f: &mut fmt::Formatter<W>) -> fmt::Result {
        f.pad(str::from_utf8(&self.hyphen()).unwrap())
    }
}

// The id that four numbers give.
fn of_four(first: u64, second: u64, third: u64, fourth: u64) -> LvmId
    ensures value { result ≡ id_of_words (first ∷ second ∷ third ∷ fourth ∷ []) }
    ensures valid { IsId result }
{
    let mut chars = [0; 32];
    put(&mut chars, 0, &chars_of_word(first));
    put(&mut chars, 8, &chars_of_word(second));
    put(&mut chars, 16, &chars_of_word(third));
    put(&mut chars, 24, &chars_of_word(fourth));
    LvmId::new(chars)
}

// The characters of a number.
fn chars_of_word(word: u64) -> [u8; 8]
    ensures { result ≡ word_chars word }
{
    let mut chars = [0; 8];
    let mut rest = word;
    for c in chars.iter_mut() {
        *c = char_of_digit((rest % 62) as u8);
        rest /= 62;
    }
    chars
}

// The character of a digit.
fn char_of_digit(digit: u8) -> u8
    requires { digit < 62 }
    ensures { result ≡ digit_char digit }
{
    match digit {
        0..=9 => b'0' + digit,
        10..=35 => b'a' + (digit - 10),
        _ => b'A' + (digit - 36),
    }
}
