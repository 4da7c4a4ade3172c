//! The physical volume that a section stands for.
ghost use Rattle.conf_text.specs.Items.{items};
ghost use Rattle.meta_model.specs.Standing.{pv_of};
ghost use Rattle.meta_read.specs.Reading.{Gives};

use crate::ids::required_id;
use crate::keys::{number_or, required_number, text_or_empty};
use crate::refusals::text_of;
use crate::words::{has_word, required_status, words_if_any};
use conf_text::Section;
use meta_model::{GroupRefusal, Pv};
use std::alloc::Global;

// The status words of a physical volume.
const PV_WORDS: [&[u8]; 1] = [b"ALLOCATABLE"];

/// The physical volume that the section stands for.
pub(crate) fn read_pv(alloc: Global, section: &Section<'_>) -> Result<Pv, GroupRefusal>
    ensures { Gives (pv_of (items section.now)) result }
{
    let id = required_id(alloc, section, b"id")?;
    let pe_start = required_number(alloc, section, b"pe_start")?;
    let pe_count = required_number(alloc, section, b"pe_count")?;
    let status = required_status(alloc, section, b"status", &PV_WORDS)?;
    let flags = words_if_any(alloc, section, b"flags")?;
    let device = text_or_empty(alloc, section, b"device")?;
    let dev_size = number_or(alloc, section, b"dev_size", 0)?;
    Ok(Pv {
        id,
        device: text_of(alloc, device)?,
        allocatable: has_word(&status, b"ALLOCATABLE"),
        missing: has_word(&flags, b"MISSING"),
        dev_size,
        pe_start,
        pe_count,
    })
}
