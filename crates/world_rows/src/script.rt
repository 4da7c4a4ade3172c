//! The lines of a script.
use lvm_id::MixWords;
use lvm_script::{Line, Script, script_of};
use sector_base::Text;
use std::alloc::Global;
use std::io;

/// The lines of this text, the last one first.
pub fn lines_of(alloc: Global, text: String) -> io::Result<Vec<Line>> {
    let text = Text::from_vec(text.into_bytes());
    match script_of(alloc, &text, &mut MixWords { state: 0 }) {
        Ok(script) => Ok(reversed(script)),
        Err(_) => Err(io::Error::other("the script is refused")),
    }
}

// The lines of the script, the last one first.
fn reversed(script: Script) -> Vec<Line> {
    let mut lines = script.into_vec();
    lines.reverse();
    lines
}
