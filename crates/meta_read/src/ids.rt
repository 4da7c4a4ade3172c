//! Ids of keys.
ghost use Rattle.std.specs.Prelude.{◌≡◌, Some, None, MatchOption};
ghost use Rattle.conf_text.specs.Items.{items};
ghost use Rattle.lvm_id.specs.LvmId.{IsId};
ghost use Rattle.meta_model.specs.Keys.{id as id_of, id_printed};
ghost use Rattle.meta_read.specs.Reading.{Gives};

use crate::keys::required_text;
use crate::refusals::bad_id;
use conf_text::Section;
use lvm_id::{LvmId, parse_hyphen};
use meta_model::GroupRefusal;
use std::alloc::Global;

/// The id of a key that has to stand.
pub(crate) fn required_id(
    alloc: Global,
    section: &Section<'_>,
    key: &[u8],
) -> Result<LvmId, GroupRefusal>
    ensures { Gives (id_of key.now (items section.now)) result }
{
    let text = required_text(alloc, section, key)?;
    match id_in(text) {
        Some(id) => Ok(id),
        None => Err(bad_id(alloc, key)),
    }
}

// The id that prints as the text.
fn id_in(text: &[u8]) -> Option<LvmId>
    ensures { result ≡ id_printed text.now }
{
    match parse_hyphen(text) {
        Ok(id) => Some(id),
        Err(_) => None,
    }
}
