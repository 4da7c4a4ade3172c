//! The sections of a section.
ghost use Rattle.std.specs.Prelude.{◌≡◌, ◌≤◌, IfOk, length, filter_map};
ghost use Rattle.std.specs.Char.{is_ascii_digit};
ghost use Rattle.std.specs.List.{list_all};
ghost use Rattle.conf_text.specs.Items.{items};
ghost use Rattle.meta_model.specs.Standing.{sections_of, is_segment_name};
ghost use Rattle.meta_read.specs.Reading.{as_sections, segment_body};

use conf_text::{Item, Section};
use std::alloc::{AllocError, Global};

/// A section with its name.
pub(crate) type NamedSection<'a> = (&'a [u8], Section<'a>);

/// The sections of a section with their names, in the order of the text.
pub(crate) fn sections_in<'a>(
    alloc: Global,
    section: &Section<'a>,
) -> Result<Vec<NamedSection<'a>>, AllocError>
    ensures { IfOk result (λ found. as_sections found.items ≡ sections_of (items section.now)) }
{
    let mut found = Vec::new(alloc);
    let mut next = section.split_first();
    while let Some((name, item, after)) = next {
        if let Item::Section(body) = item {
            found.push((name, body))?;
        }
        next = after.split_first();
    }
    Ok(found)
}

/// How many of the sections are segments.
pub(crate) fn segment_count(sections: &[NamedSection<'_>]) -> usize
    ensures count { result ≡ length (filter_map segment_body (as_sections sections.now)) }
    ensures within { result ≤ length sections.now }
{
    let mut count = 0usize;
    for (name, _) in sections {
        if is_segment(name) {
            count += 1;
        }
    }
    count
}

/// Whether the name is that of a segment.
pub(crate) fn is_segment(name: &[u8]) -> bool
    ensures { result ≡ is_segment_name name.now }
{
    if name.len() <= 7 {
        return false;
    }
    let (front, number) = name.split_at(7);
    front == b"segment".as_slice() && number[0] != b'0' && are_digits(number)
}

fn are_digits(bytes: &[u8]) -> bool
    ensures { result ≡ list_all is_ascii_digit bytes.now }
{
    bytes.iter().all(|byte| byte.is_ascii_digit())
}
