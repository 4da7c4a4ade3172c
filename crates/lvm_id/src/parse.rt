//! Reading ids.
ghost use Rattle.std.specs.Prelude.{◌≡◌, ◌≢◌, ◌≤◌, ◌<◌, ◌+◌, ◌↔◌, ℕ, List, length, slice_index, All, IsTrue, IsFalse, IsOk, Ok, IfOk, IsErrOf, MatchOption};
ghost use Rattle.lvm_id.specs.LvmId.{IsId, IsIdChar, is_id_char, is_hyphen_place, fits_plain, fits_hyphenated, IsFirstMisfit, hyphen_form};

use crate::put::put;
use crate::{IdRefusal, LvmId};

/// Reads an id as it is stored, 32 characters. A text of another length is refused as `BadLength`, and then one with
/// other characters as `BadChar` with the place of the first of them.
pub fn parse_plain(text: &[u8]) -> Result<LvmId, IdRefusal>
    ensures value { IfOk result (λ id. id ≡ text.now) }
    ensures accepted { IsOk result ↔ IsId text.now }
    ensures bad_length { (bytes : ℕ) → IsErrOf result (IdRefusal.BadLength bytes) ↔ ((length text.now ≡ bytes) × (bytes ≢ 32)) }
    ensures bad_char { (place : ℕ) → IsErrOf result (IdRefusal.BadChar place) ↔ ((length text.now ≡ 32) × IsFirstMisfit fits_plain text.now place) }
    ensures bad_hyphen { (place : ℕ) → ¬ IsErrOf result (IdRefusal.BadHyphen place) }
{
    if text.len() != 32 {
        return Err(IdRefusal::BadLength(text.len()));
    }
    match first_bad_char(text) {
        Some(place) => Err(IdRefusal::BadChar(place)),
        None => {
            let mut chars = [0; 32];
            chars.copy_from_slice(text);
            Ok(LvmId::new(chars))
        }
    }
}

/// Reads an id as it prints, 38 bytes. A text of another length is refused as `BadLength`, and then by the first place
/// whose byte may not stand there: as `BadHyphen` where a hyphen should stand, and as `BadChar` elsewhere.
pub fn parse_hyphen(text: &[u8]) -> Result<LvmId, IdRefusal>
    ensures value { IfOk result (λ id. IsId id × (hyphen_form id ≡ text.now)) }
    ensures accepted { (id : List ℕ) → IsId id → hyphen_form id ≡ text.now → result ≡ Ok id }
    ensures bad_length { (bytes : ℕ) → IsErrOf result (IdRefusal.BadLength bytes) ↔ ((length text.now ≡ bytes) × (bytes ≢ 38)) }
    ensures bad_char { (place : ℕ) → IsErrOf result (IdRefusal.BadChar place) ↔ ((length text.now ≡ 38) × IsFirstMisfit fits_hyphenated text.now place × IsFalse (is_hyphen_place place)) }
    ensures bad_hyphen { (place : ℕ) → IsErrOf result (IdRefusal.BadHyphen place) ↔ ((length text.now ≡ 38) × IsFirstMisfit fits_hyphenated text.now place × IsTrue (is_hyphen_place place)) }
{
    if text.len() != 38 {
        return Err(IdRefusal::BadLength(text.len()));
    }
    match first_misfit(text) {
        Some(place) if is_hyphen_at(place) => Err(IdRefusal::BadHyphen(place)),
        Some(place) => Err(IdRefusal::BadChar(place)),
        None => Ok(LvmId::new(without_hyphens(text))),
    }
}

// Whether an id may have this character.
fn is_char(byte: u8) -> bool
    ensures { result ≡ is_id_char byte }
{
    byte.is_ascii_alphanumeric() || byte == b'!' || byte == b'#'
}

// Whether a printed id has a hyphen at this place.
fn is_hyphen_at(place: usize) -> bool
    ensures { result ≡ is_hyphen_place place }
{
    matches!(place, 6 | 11 | 16 | 21 | 26 | 31)
}

// Whether a printed id may have this byte at this place.
fn may_stand(place: usize, byte: u8) -> bool
    ensures { result ≡ fits_hyphenated place byte }
{
    if is_hyphen_at(place) {
        byte == b'-'
    } else {
        is_char(byte)
    }
}

fn first_bad_char(text: &[u8]) -> Option<usize>
    ensures { MatchOption result (All IsIdChar text.now) (IsFirstMisfit fits_plain text.now) }
{
    for (place, byte) in text.iter().enumerate() {
        if !is_char(*byte) {
            return Some(place);
        }
    }
    None
}

// The first place whose byte may not stand there in a printed id.
fn first_misfit(text: &[u8]) -> Option<usize>
    ensures { MatchOption result ((k : ℕ) → k < length text.now → IsTrue (fits_hyphenated k (slice_index text.now k))) (IsFirstMisfit fits_hyphenated text.now) }
{
    for (place, byte) in text.iter().enumerate() {
        if !may_stand(place, *byte) {
            return Some(place);
        }
    }
    None
}

// The characters of a printed id.
fn without_hyphens(text: &[u8]) -> [u8; 32]
    requires long { length text.now ≡ 38 }
    requires fits { (k : ℕ) → k < 38 → IsTrue (fits_hyphenated k (slice_index text.now k)) }
    ensures printed { hyphen_form result ≡ text.now }
    ensures valid { IsId result }
{
    let mut chars = [0; 32];
    put(&mut chars, 0, &text[0..6]);
    put(&mut chars, 6, &text[7..11]);
    put(&mut chars, 10, &text[12..16]);
    put(&mut chars, 14, &text[17..21]);
    put(&mut chars, 18, &text[22..26]);
    put(&mut chars, 22, &text[27..31]);
    put(&mut chars, 26, &text[32..38]);
    chars
}
