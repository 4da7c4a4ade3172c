//! The rows of a whole file.
use crate::line::first_word;
use crate::reader::Reader;
use crate::row::Row;
use crate::stop::{Stop, failed, failed_at};
use crate::texts::{Named, Texts};
use std::alloc::Global;

/// A file as far as it was read: its texts, and its rows. A text that is open takes lines as they stand.
#[derive(Drop)]
struct FileReader {
    alloc: Global,
    texts: Texts,
    open: Option<Named>,
    rows: Reader,
}

/// The rows of a file with these contents.
pub fn rows_of(alloc: Global, contents: &str) -> Result<Vec<Row>, Stop> {
    let mut reader = FileReader {
        alloc,
        texts: Texts::new(alloc),
        open: None,
        rows: Reader::new(alloc),
    };
    let mut last = 0;
    for (line, text) in (1..usize::MAX).zip(contents.split('\n')) {
        reader.read(line, text)?;
        last = line;
    }
    if reader.open.is_some() {
        return Err(failed(alloc, last, "a text isn't ended"));
    }
    reader.rows.finished(last)
}

impl FileReader {
    // Reads a line.
    fn read(&mut self, line: usize, text: &str) -> Result<(), Stop> {
        let shown = text.trim_start();
        if let Some(open) = self.open.take() {
            return self.read_verbatim(open, text, shown == "end");
        }
        if shown.is_empty() || shown.starts_with('#') {
            return Ok(());
        }
        match first_word(shown) {
            ("text", rest) => self.read_text(line, rest),
            _ => self.rows.read(&self.texts, line, shown),
        }
    }

    // Reads a line of the open text, or its end.
    fn read_verbatim(&mut self, open: Named, text: &str, is_end: bool) -> Result<(), Stop> {
        if is_end {
            return Ok(self.texts.add(open)?);
        }
        let mut open = open;
        open.bytes.extend_from_slice(text.as_bytes())?;
        open.bytes.push(b'\n')?;
        self.open = Some(open);
        Ok(())
    }

    // Reads the line that names a text, and has its definition or begins its lines.
    fn read_text(&mut self, line: usize, rest: &str) -> Result<(), Stop> {
        let (name, definition) = first_word(rest);
        if name.is_empty() || self.texts.has(name) {
            return Err(failed_at(self.alloc, line, "a text has a name of its own", name));
        }
        let name = String::from_str(self.alloc, name)?;
        if definition.is_empty() {
            self.open = Some(Named {
                name,
                bytes: Vec::new(self.alloc),
            });
            return Ok(());
        }
        let bytes = self.texts.defined(self.alloc, line, definition)?;
        self.texts.add(Named { name, bytes })?;
        Ok(())
    }
}
