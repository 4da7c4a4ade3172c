//! Single words.
ghost use Rattle.std.specs.Prelude.{◌≡◌, ◌<◌, ◌==◌, ◌&&◌, IfSome, length, if◌then◌else◌, Some, option_map};
ghost use Rattle.std.specs.Int.{is_power_of_two};
ghost use Rattle.std.specs.List.{list_all, position};
ghost use Rattle.command_table.specs.declared.fault.Fault.TheVariants.{BadCount, BadHex};
ghost use Rattle.command_table.specs.Values.{are_sectors, fault_in, halves, has_plus, is_between, is_digit, is_disk_name, is_hex_digit, is_numeral, is_path, is_policy, is_visible, number_fault, number_of, sectors_in, size_of, unit_of, unless, without_plus};

use crate::{Fault, Kind};
use lvm_name::{GroupName, VolumeName};

/// The fault of a word in the place of a value or an argument.
pub fn fault_in(kind: Kind, word: &[u8]) -> Option<Fault>
    ensures { result ≡ fault_in kind word.now }
{
    match kind {
        Kind::Flag => None,
        Kind::Number(least, most) => number_fault(number_of(word), least, most),
        Kind::Growth(least, most) => number_fault(number_of(without_plus(word)), least, most),
        Kind::Size { unit, least, most } => number_fault(size_of(word, unit), least, most),
        Kind::SizeGrowth { unit, least, most } => {
            number_fault(size_of(without_plus(word), unit), least, most)
        }
        Kind::PowerSize { unit, least, most } => power_fault(size_of(word, unit), least, most),
        Kind::Policy => unless(Fault::BadOption, is_policy(word)),
        Kind::Disk => unless(Fault::BadName, is_disk_name(word)),
        Kind::Group => unless(Fault::BadName, GroupName::accepts(word)),
        Kind::Volume => unless(Fault::BadName, VolumeName::accepts(word)),
        Kind::Path => unless(Fault::BadName, is_path(word)),
        Kind::Hex => hex_fault(word),
    }
}

// The fault of a number that has to be from the first to the second.
fn number_fault(number: Option<u64>, least: u64, most: u64) -> Option<Fault>
    ensures { result ≡ number_fault (is_between least most) number }
{
    match number {
        None => Some(Fault::BadNumber),
        Some(n) => unless(Fault::BadCount, least <= n && n <= most),
    }
}

// The same of one that has to be a power of two.
fn power_fault(number: Option<u64>, least: u64, most: u64) -> Option<Fault>
    ensures { result ≡ number_fault (λ n. is_between least most n && is_power_of_two n) number }
{
    match number {
        None => Some(Fault::BadNumber),
        Some(n) => unless(
            Fault::BadCount,
            least <= n && n <= most && n.is_power_of_two(),
        ),
    }
}

// The fault of digits that have to write sectors.
fn hex_fault(word: &[u8]) -> Option<Fault>
    ensures { result ≡ (if are_sectors (length word.now) then unless BadHex (list_all is_hex_digit word.now) else Some BadCount) }
{
    if are_sectors(word.len()) {
        unless(Fault::BadHex, all_hex(word))
    } else {
        Some(Fault::BadCount)
    }
}

// No fault where the test is passed.
fn unless(fault: Fault, passed: bool) -> Option<Fault>
    ensures { result ≡ unless fault passed }
{
    if passed { None } else { Some(fault) }
}

/// The size that the word writes, in sectors: a number and at most one letter, `unit` sectors for each where there is none.
/// None where it is no size; what doesn't fit 64 bits is their last number.
pub fn size_of(word: &[u8], unit: u64) -> Option<u64>
    ensures { result ≡ size_of unit word.now }
{
    let (last, front) = word.split_last()?;
    match unit_of(*last) {
        None => sectors_in(word, unit),
        Some(own) => sectors_in(front, own),
    }
}

// So many units as the word says, in sectors.
fn sectors_in(word: &[u8], unit: u64) -> Option<u64>
    ensures { result ≡ sectors_in (number_of word.now) unit }
{
    Some(number_of(word)?.saturating_mul(unit))
}

// The sectors that a letter stands for.
fn unit_of(letter: u8) -> Option<u64>
    ensures { result ≡ unit_of letter }
{
    match letter {
        b's' | b'S' => Some(1),
        b'k' | b'K' => Some(2),
        b'm' | b'M' => Some(2_048),
        b'g' | b'G' => Some(2_097_152),
        b't' | b'T' => Some(2_147_483_648),
        _ => None,
    }
}

/// The word without the `+` that it begins with, if it does.
pub fn without_plus(word: &[u8]) -> &[u8]
    ensures { result.now ≡ without_plus word.now }
{
    match word {
        [b'+', rest @ ..] => rest,
        _ => word,
    }
}

/// Whether the word begins with `+`.
pub fn has_plus(word: &[u8]) -> bool
    ensures { result ≡ has_plus word.now }
{
    word.first() == Some(&b'+')
}

/// The words on both sides of the first `/`. None where there is none.
pub fn halves(word: &[u8]) -> Option<(&[u8], &[u8])>
    ensures { option_map (λ both. (both.0.now, both.1.now)) result ≡ halves word.now }
{
    match slash_in(word) {
        Some(place) => Some((&word[..place], &word[place + 1..])),
        None => None,
    }
}

// The place of the first `/`.
fn slash_in(word: &[u8]) -> Option<usize>
    ensures place { result ≡ position (λ byte. byte == 47) word.now }
    ensures within { IfSome result (λ place. place < length word.now) }
{
    word.iter().position(|byte| *byte == b'/')
}

// Whether the word is the names of a group and of a logical volume.
fn is_path(word: &[u8]) -> bool
    ensures { result ≡ is_path word.now }
{
    match halves(word) {
        Some((vg, lv)) => { GroupName::accepts(vg) && VolumeName::accepts(lv) }
        None => false,
    }
}

fn is_policy(word: &[u8]) -> bool
    ensures { result ≡ is_policy word.now }
{
    word == b"contiguous".as_slice() || word == b"normal".as_slice()
}

// Whether so many hex digits write 1 to 8 sectors.
fn are_sectors(digits: usize) -> bool
    ensures { result ≡ are_sectors digits }
{
    digits >= 1_024 && digits <= 8_192 && digits % 1_024 == 0
}

/// The number that the word writes: decimal digits that fit 64 bits.
pub fn number_of(word: &[u8]) -> Option<u64>
    ensures { result ≡ number_of word.now }
{
    if is_numeral(word) {
        match str::from_utf8(word) {
            Ok(digits) => digits.parse().ok(),
            Err(_) => None,
        }
    } else {
        None
    }
}

/// Whether these bytes are a disk's name: 1 to 127 bytes from `!` to `~`.
pub fn is_disk_name(name: &[u8]) -> bool
    ensures { result ≡ is_disk_name name.now }
{
    !name.is_empty() && name.len() <= 127 && all_visible(name)
}

// Whether the word is one or more decimal digits.
fn is_numeral(word: &[u8]) -> bool
    ensures { result ≡ is_numeral word.now }
{
    !word.is_empty() && all_digits(word)
}

fn all_digits(word: &[u8]) -> bool
    ensures { result ≡ list_all is_digit word.now }
{
    word.iter().all(|byte| is_digit(*byte))
}

fn all_visible(word: &[u8]) -> bool
    ensures { result ≡ list_all is_visible word.now }
{
    word.iter().all(|byte| is_visible(*byte))
}

fn all_hex(word: &[u8]) -> bool
    ensures { result ≡ list_all is_hex_digit word.now }
{
    word.iter().all(|byte| is_hex_digit(*byte))
}

fn is_hex_digit(byte: u8) -> bool
    ensures { result ≡ is_hex_digit byte }
{
    is_digit(byte) || (byte >= b'A' && byte <= b'F') || (byte >= b'a' && byte <= b'f')
}

// Whether the byte is a decimal digit.
fn is_digit(byte: u8) -> bool
    ensures { result ≡ is_digit byte }
{
    byte >= b'0' && byte <= b'9'
}

// Whether the byte can stand in a disk's name.
fn is_visible(byte: u8) -> bool
    ensures { result ≡ is_visible byte }
{
    byte >= b'!' && byte <= b'~'
}
