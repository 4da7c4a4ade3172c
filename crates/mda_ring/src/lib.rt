//! The ring of a metadata area: which sectors a text stands in, where the next one goes, and how a text is put into
//! sectors and read from them again.
//!
//! The next text is placed exactly where it has room beside the committed one, and touches no sector of it. The spans
//! of a text cover exactly the sectors that its bytes touch, and a text that was put into sectors is gathered from them.
#![tactic(auto)]

mod area;
mod counts;
mod next_place;
mod place;
mod refusal;
mod ring_spans;
#[cfg(test)]
mod tests;
mod text_read;
mod text_write;

pub use area::{Area, Areas};
pub use next_place::plan_next;
pub use place::Place;
pub use refusal::RingRefusal;
pub use ring_spans::spans;
pub use text_read::{gather, gather_bytes, is_stored_in, stored_text};
pub use text_write::scatter;
