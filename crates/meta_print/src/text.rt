//! The texts of a group.
ghost use Rattle.std.specs.Prelude.{◌≡◌, ◌^◌, min, length, IfOk};
ghost use Rattle.conf_text.specs.Printed.{printed};
ghost use Rattle.meta_print.specs.Layout.{tree_of, backup_of};

use crate::group::{write_backup, write_tree};
use conf_text::CountedBytes;
use meta_model::Group;
use sector_base::Text;
use std::alloc::{AllocError, Global};

/// The text of a group that is committed at this time, in seconds since 1970. It takes the memory of its bytes.
///
/// # Errors
///
/// `AllocError` where memory is wanting.
pub fn text_of(alloc: Global, group: &Group, now: u64) -> Result<Text, AllocError>
    ensures { IfOk result (λ text. text ≡ printed (tree_of group.now now)) }
{
    let mut bytes = Vec::with_capacity(alloc, printed_len(group, now) as usize)?;
    write_tree(&mut bytes, group, now)?;
    Ok(Text::from_vec(bytes))
}

/// The text of a group's backup at this time, in seconds since 1970. It is as long as the text that is committed, and takes
/// the memory of its bytes.
///
/// # Errors
///
/// `AllocError` where memory is wanting.
pub fn backup_text(alloc: Global, group: &Group, now: u64) -> Result<Text, AllocError>
    ensures { IfOk result (λ text. text ≡ printed (backup_of group.now now)) }
{
    let mut bytes = Vec::with_capacity(alloc, printed_len(group, now) as usize)?;
    write_backup(&mut bytes, group, now)?;
    Ok(Text::from_vec(bytes))
}

/// The bytes of the text that is committed at this time, in seconds since 1970, or 2^62 where they are more. It takes no
/// memory.
pub fn printed_len(group: &Group, now: u64) -> u64
    ensures { result ≡ min (length (printed (tree_of group.now now))) (2 ^ 62) }
{
    let mut counted = CountedBytes::new();
    match write_tree(&mut counted, group, now) {
        Ok(()) => counted.count(),
        Err(_) => unreachable!(),
    }
}
