//! Ids of lvm2: 32 characters, drawn from numbers, and read and printed plain or in groups.
//!
//! A text is read exactly where it is the printed form of an id, and then as that id. Every other text is refused for
//! its length, or at its first wrong place. A drawn id is determined by the next four numbers of its source.
#![tactic(auto)]

mod id;
mod mem_words;
mod mix_words;
mod parse;
mod put;
mod refusal;
mod words;

pub use id::LvmId;
pub use mem_words::MemWords;
pub use mix_words::MixWords;
pub use parse::{parse_hyphen, parse_plain};
pub use refusal::IdRefusal;
pub use words::Words64;
