//! A sink for a text.
ghost use Rattle.std.specs.Prelude.{◌≡◌, ◌<◌, ◌^◌, [], Some};

use crate::{Failed, Sink};
use sector_base::Text;
use std::alloc::Global;

/// A sink that collects a text in memory. A piece that there is no memory for is a fault.
#[derive(Debug, Drop)]
pub struct TextBuffer {
    text: Vec<u8>,
    faults: u64,
    ghost counted: { faults < 2 ^ 64 },
}

impl TextBuffer {
    /// An empty one, without a fault.
    pub fn new(alloc: Global) -> Self
        ensures empty { result.text.items ≡ [] }
        ensures unfaulted { result.faults ≡ 0 }
    {
        TextBuffer {
            text: Vec::new(alloc),
            faults: 0,
        }
    }

    /// The text so far.
    pub fn as_bytes(&self) -> &[u8]
        ensures { result.now ≡ self.now.text.items }
    {
        &self.text
    }

    /// Gives the text.
    pub fn into_text(self) -> Text
        ensures { result ≡ self.text.items }
    {
        Text::from_vec(self.text)
    }
}

impl Sink for TextBuffer {
    ghost use Rattle.byte_streams.specs.Streams.{HasRisen, Writes};

    ghost written = { λ sink. Some sink.text.items };

    ghost fault_count = { λ sink. sink.faults };

    ghost counted = { λ sink. sink.counted };

    fn write(&mut self, from: &[u8]) -> Result<usize, Failed> {
        if self.text.extend_from_slice(from).is_err() {
            self.faults = self.faults.saturating_add(1);
            return Err(Failed);
        }
        Ok(from.len())
    }

    fn faults(&self) -> u64 {
        self.faults
    }
}
