//! lvm2's text metadata: which text stands for which tree and why any other is refused, the sections of a tree, and how
//! entries are printed.
//!
//! A tree is the list of its entries in the order of the text. A text is read as its one tree, or refused for the first
//! cause from the left, in time linear in its length; what is printed of entries is a text of them.
#![tactic(auto)]

mod kind;
mod laws;
mod number;
mod outline;
mod reader;
mod reading;
mod refusal;
mod scan;
mod section;
mod sink;
mod token;
mod tree;
mod writer;

pub use laws::{one_token_outcome, printed_again};
pub use reading::{one_outcome, read_conf};
pub use refusal::ConfRefusal;
pub use scan::tokens;
pub use section::{Item, Section};
pub use sink::{CountedBytes, TextSink};
pub use token::{Token, TokenKind, Tokens};
pub use tree::{ConfEntry, Scalar, Tree};
pub use writer::{
    begin_list, end_list, list_number, list_pair, list_text, write_close, write_number,
    write_numbered_open, write_open, write_text, write_words,
};
