//! The tests of a name.
ghost use Rattle.std.specs.Prelude.{◌≡◌, ◌∷◌, [], codes, not};
ghost use Rattle.std.specs.List.{position};
ghost use Rattle.lvm_name.specs.Names.{is_among, is_name_byte, has_within, is_top_key, is_reserved, name_refusal};

use crate::NameRefusal;

// What a name has at most.
const MOST_BYTES: usize = 127;

/// The first test that the text fails, where it is reserved or isn't.
pub(crate) fn refusal_of(text: &[u8], is_reserved: bool) -> Option<NameRefusal>
    ensures { result ≡ name_refusal (λ _. is_reserved) text.now }
{
    if text.is_empty() {
        Some(NameRefusal::Empty)
    } else if text.len() > MOST_BYTES {
        Some(NameRefusal::TooLong(text.len()))
    } else if text.starts_with(b"-") {
        Some(NameRefusal::LeadingDash)
    } else if is_dots(text) {
        Some(NameRefusal::Dots)
    } else {
        match first_bad(text) {
            Some(place) => Some(NameRefusal::BadChar(place)),
            None if is_reserved => Some(NameRefusal::Reserved),
            None => None,
        }
    }
}

fn is_dots(text: &[u8]) -> bool
    ensures { result ≡ is_among (codes "." ∷ codes ".." ∷ []) text.now }
{
    text == b".".as_slice() || text == b"..".as_slice()
}

// The place of the first byte that no name may have.
fn first_bad(text: &[u8]) -> Option<usize>
    ensures { result ≡ position (λ byte. not (is_name_byte byte)) text.now }
{
    text.iter().position(|byte| !may_stand(*byte))
}

/// Whether the text is a key that stands beside a group.
pub(crate) fn is_key_beside_group(text: &[u8]) -> bool
    ensures { result ≡ is_top_key text.now }
{
    text == b"contents".as_slice()
        || text == b"version".as_slice()
        || text == b"description".as_slice()
        || text == b"creation_host".as_slice()
        || text == b"creation_time".as_slice()
}

/// Whether lvm2 names its hidden volumes so.
pub(crate) fn is_reserved_for_lvm(text: &[u8]) -> bool
    ensures { result ≡ is_reserved text.now }
{
    text.starts_with(b"pvmove")
        || text.starts_with(b"snapshot")
        || stands_within(b"_mimage", text)
        || stands_within(b"_mlog", text)
}

// Whether a name may have this byte.
fn may_stand(byte: u8) -> bool
    ensures { result ≡ is_name_byte byte }
{
    byte.is_ascii_alphanumeric() || matches!(byte, b'+' | b'_' | b'.' | b'-')
}

// Whether the part stands somewhere in the text.
fn stands_within(part: &[u8], text: &[u8]) -> bool
    ensures { result ≡ has_within part.now text.now }
{
    let mut rest = text;
    while let [_, more @ ..] = rest {
        if rest.starts_with(part) {
            return true;
        }
        rest = more;
    }
    part.is_empty()
}
