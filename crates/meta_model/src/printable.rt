//! Bytes of a text, as a refusal shows them.
ghost use Rattle.std.specs.Prelude.{◌≡◌, Some, map, ◌∷◌, []};
ghost use Rattle.std.specs.Fmt.{DisplaysOnOk};
ghost use Rattle.sector_base.specs.Shown.{shown_text, text};
ghost use Rattle.meta_model.specs.ShownGroup.{printable_byte, printable};

use sector_base::Text;
use std::fmt;

// Shows each byte that can be printed, and a question mark for any other.
#[derive(Drop)]
struct Printable<'a> {
    bytes: &'a [u8],
}

impl fmt::Display for Printable<'_> {
    ghost output = { λ shown. Some (printable shown.bytes.now) };

    fn fmt<W: fmt::Write>(&self, f: &mut fmt::Formatter<W>) -> fmt::Result {
        for byte in self.bytes {
            let c = printable_char(*byte);
            write!(f, "{c}")?;
        }
        Ok(())
    }
}

/// Writes a kind and a text, with a space between.
pub(crate) fn write_kind_and_text<W: fmt::Write>(
    f: &mut fmt::Formatter<W>,
    kind: &str,
    shown: &Text,
) -> fmt::Result
    ensures { DisplaysOnOk W.write_str_gives f.old result (Some (shown_text (kind.now, text (printable shown.now) ∷ []))) f.new }
{
    let bytes = Printable {
        bytes: shown.as_bytes(),
    };
    write!(f, "{kind} {bytes}")
}

fn printable_char(byte: u8) -> char
    ensures { result ≡ printable_byte byte }
{
    match byte {
        b' '..=b'~' => char::from(byte),
        _ => '?',
    }
}
