//! What a header sector says of the text that is committed in its area.
ghost use Rattle.std.specs.Prelude.{◌≡◌};
ghost use Rattle.mda_header.specs.Header.{IsEntry};
ghost use Rattle.mda_header.specs.declared.entry.HeaderEntry.{HeaderEntry as EntryOf};

use crate::read::{holds_nothing, is_ignored};
use crate::{Locn, MdaRefusal, read_mda};
use sector_base::Bytes512;

/// What a header sector says of the text that is committed in its area.
#[derive(Clone, Copy, Debug, Drop, PartialEq, Eq)]
pub enum HeaderEntry {
    /// The area is neither read nor written.
    Ignored,
    /// No text is committed.
    Nothing,
    /// The text that stands there is committed.
    Text(Locn),
    /// The sector isn't the header of the area.
    Refused(MdaRefusal),
}

/// Reads what the sector says of the text that is committed in the area that begins at the byte `start` of its disk and
/// has `size` bytes. A header of lvm2's version that is marked as ignored is that of an ignored area, whatever else it
/// says, and one without a committed text holds nothing, whatever start and size it says.
#[tactic(auto, using(crate::proofs::OneEntry::one_entry))]
pub fn read_entry(sector: &Bytes512, start: u64, size: u64) -> HeaderEntry
    ensures entry { IsEntry sector.now start size result }
    // The sector says one thing.
    ensures one { (other : EntryOf) → IsEntry sector.now start size other → other ≡ result }
{
    if is_ignored(sector) {
        return HeaderEntry::Ignored;
    }
    match read_mda(sector, start, size) {
        Ok(header) => match header.committed {
            Some(locn) => HeaderEntry::Text(locn),
            None => HeaderEntry::Nothing,
        },
        Err(_) if holds_nothing(sector) => HeaderEntry::Nothing,
        Err(refusal) => HeaderEntry::Refused(refusal),
    }
}
