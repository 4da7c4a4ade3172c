//! Texts of bytes.
use sector_base::Text;
use std::alloc::{AllocError, Global};

/// The bytes as a text.
pub fn text_of(alloc: Global, bytes: &[u8]) -> Result<Text, AllocError> {
    Ok(Text::from_vec(Vec::from_slice(alloc, bytes)?))
}
