//! The streams that the product reads its script from and writes its output to.
//!
//! A source gives bytes and a sink takes them, each in pieces of any size. Both count their faults, and answer `Failed`
//! only in a call in which that count has risen. Where the bytes of a stream are told, its contracts say which bytes were
//! read, which are left and which were written, after a failure too.
#![tactic(auto)]

mod failed;
mod mem_sink;
mod mem_source;
mod plan;
mod sink;
mod source;
mod source_text;
mod text_buffer;
mod writing;

pub use failed::Failed;
pub use mem_sink::MemSink;
pub use mem_source::MemSource;
pub use sink::Sink;
pub use source::Source;
pub use source_text::{ReadFault, read_all};
pub use text_buffer::TextBuffer;
pub use writing::{write_all, write_bytes, write_number};
