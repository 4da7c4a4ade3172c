//! Pairs of a name and an extent.
ghost use Rattle.std.specs.Prelude.{◌≡◌, IfOk, map, option_map};
ghost use Rattle.conf_text.specs.Items.{items};
ghost use Rattle.conf_text.specs.Views.{scalar_view};
ghost use Rattle.meta_model.specs.Keys.{required, pairs as pairs_kind, pairs_of};
ghost use Rattle.meta_read.specs.Reading.{GivesBy, as_pairs};

use crate::keys::required_item;
use crate::refusals::wrong_kind;
use conf_text::{Item, Scalar, Section};
use meta_model::GroupRefusal;
use std::alloc::{AllocError, Global};

/// The pairs of a key that has to stand.
pub(crate) fn required_pairs<'a>(
    alloc: Global,
    section: &Section<'a>,
    key: &[u8],
) -> Result<Vec<(&'a [u8], u64)>, GroupRefusal>
    ensures { GivesBy as_pairs (required pairs_kind key.now (items section.now)) result }
{
    match required_item(alloc, section, key)? {
        Item::List(scalars) => match pairs_in(alloc, scalars)? {
            Some(pairs) => Ok(pairs),
            None => Err(wrong_kind(alloc, key)),
        },
        _ => Err(wrong_kind(alloc, key)),
    }
}

// Each two scalars as a pair. None where they are something else.
fn pairs_in<'a>(
    alloc: Global,
    scalars: &'a [Scalar],
) -> Result<Option<Vec<(&'a [u8], u64)>>, AllocError>
    ensures { IfOk result (λ found. option_map as_pairs found ≡ pairs_of (map scalar_view scalars.entry.now)) }
{
    let mut pairs = Vec::with_capacity(alloc, scalars.len() / 2)?;
    let mut rest = scalars;
    while let [name, extent, more @ ..] = rest {
        match (name, extent) {
            (Scalar::Text(name), Scalar::Number(extent)) => {
                pairs.push((name.as_slice(), *extent))?
            }
            _ => return Ok(None),
        }
        rest = more;
    }
    if rest.is_empty() {
        Ok(Some(pairs))
    } else {
        Ok(None)
    }
}
