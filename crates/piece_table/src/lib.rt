//! The pieces of lines under way: which may be at work at once, how far each has come, and whose an operation is.
//!
//! A `PieceTable` keeps the pieces beside their claims, which say who waits for whom, and the operations in flight that are a
//! piece's, by their tags. A piece waits with its sectors, is started, has operations in flight, and took place; where a flush is
//! awaited for it it stays until then. No call but `new` and `reserve` takes memory.
#![tactic(auto)]

mod live;
mod table;
#[cfg(test)]
mod tests;

pub use live::{LivePiece, Owner, Stage};
pub use table::PieceTable;
