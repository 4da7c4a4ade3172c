//! The logical volume that a section stands for.
ghost use Rattle.std.specs.Prelude.{◌≡◌, map, filter_map};
ghost use Rattle.conf_text.specs.Items.{items};
ghost use Rattle.meta_model.specs.Keys.{counted, each};
ghost use Rattle.meta_model.specs.Standing.{lv_of, lv_status, segment_of, segments_of};
ghost use Rattle.meta_read.specs.Reading.{Gives, GivesBy, as_bytes, as_sections, as_segments, segment_body};

use crate::ids::required_id;
use crate::keys::{number_or, required_number, text_or_empty};
use crate::places::Places;
use crate::refusals::text_of;
use crate::sections::{NamedSection, is_segment, sections_in, segment_count};
use crate::segment::read_segment;
use crate::words::{has_word, required_status, words_if_any};
use bitflags::Flags;
use conf_text::Section;
use meta_model::{GroupRefusal, Lv, LvStatus, LvWords, Segments};
use sector_base::ItemList;
use std::alloc::Global;

// The status words of a logical volume.
const LV_WORDS: [&[u8]; 7] = [
    b"READ",
    b"WRITE",
    b"VISIBLE",
    b"FIXED_MINOR",
    b"PVMOVE",
    b"LOCKED",
    b"NOTSYNCED",
];

/// The logical volume that the section stands for.
pub(crate) fn read_lv(
    alloc: Global,
    places: &Places<'_>,
    section: &Section<'_>,
) -> Result<Lv, GroupRefusal>
    ensures { Gives (lv_of places.now (items section.now)) result }
{
    let id = required_id(alloc, section, b"id")?;
    let status = required_status(alloc, section, b"status", &LV_WORDS)?;
    let said = required_number(alloc, section, b"segment_count")?;
    let sections = counted_sections(alloc, section, said)?;
    words_if_any(alloc, section, b"flags")?;
    let created = number_or(alloc, section, b"creation_time", 0)?;
    let host = text_or_empty(alloc, section, b"creation_host")?;
    let segments = read_segments(alloc, places, sections)?;
    Ok(Lv {
        id,
        status: status_of(&status),
        created,
        host: text_of(alloc, host)?,
        segments,
    })
}

// The sections, where as many of them are segments as were said.
fn counted_sections<'a>(
    alloc: Global,
    section: &Section<'a>,
    said: u64,
) -> Result<Vec<NamedSection<'a>>, GroupRefusal>
    ensures { GivesBy as_segments (counted said (segments_of (items section.now))) result }
{
    let sections = sections_in(alloc, section)?;
    let found = segment_count(&sections) as u64;
    if found == said {
        Ok(sections)
    } else {
        Err(GroupRefusal::CountDiffers(said, found))
    }
}

// The segments among the sections.
fn read_segments(
    alloc: Global,
    places: &Places<'_>,
    sections: Vec<NamedSection<'_>>,
) -> Result<Segments, GroupRefusal>
    ensures { Gives (each (λ body. segment_of places.now (items body)) (as_segments sections.entry)) result }
{
    all_segments(alloc, places, &sections)
}

fn all_segments(
    alloc: Global,
    places: &Places<'_>,
    sections: &[NamedSection<'_>],
) -> Result<Segments, GroupRefusal>
    ensures { Gives (each (λ body. segment_of places.now (items body)) (filter_map segment_body (as_sections sections.now))) result }
{
    let mut segments = Vec::with_capacity(alloc, segment_count(sections))?;
    for (name, body) in sections {
        if is_segment(name) {
            segments.push(read_segment(alloc, places, body)?)?;
        }
    }
    Ok(ItemList::from_vec(segments))
}

fn status_of(words: &[&[u8]]) -> LvStatus
    ensures { result ≡ lv_status (map as_bytes words.now) }
{
    let mut set = LvWords::empty();
    set.set(LvWords::READ, has_word(words, b"READ"));
    set.set(LvWords::WRITE, has_word(words, b"WRITE"));
    set.set(LvWords::VISIBLE, has_word(words, b"VISIBLE"));
    set.set(LvWords::FIXED_MINOR, has_word(words, b"FIXED_MINOR"));
    set.set(LvWords::PVMOVE, has_word(words, b"PVMOVE"));
    set.set(LvWords::LOCKED, has_word(words, b"LOCKED"));
    set.set(LvWords::NOTSYNCED, has_word(words, b"NOTSYNCED"));
    LvStatus::of(set)
}
