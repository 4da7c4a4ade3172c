//! How refusals and answers are printed.
ghost use Rattle.std.specs.Prelude.{◌≡◌, Some, map};
ghost use Rattle.std.specs.Fmt.{DisplaysOnOk};
ghost use Rattle.sector_base.specs.Shown.{shown_text, value_of, value_text};

use std::fmt;

/// A value of a refusal or of an answer.
#[derive(Clone, Copy, Debug, Drop)]
pub enum Shown<'a> {
    /// A number, shown in decimal.
    Number(u64),
    /// A checksum, shown as eight lower-case hex digits.
    Sum(u32),
    /// A name or an id, shown as it stands.
    Text(&'a str),
}

impl fmt::Display for Shown<'_> {
    ghost output = { λ shown. Some (value_text (value_of shown)) };

    fn fmt<W: fmt::Write>(&self, f: &mut fmt::Formatter<W>) -> fmt::Result {
        match self {
            Shown::Number(number) => write!(f, "{number}"),
            Shown::Sum(sum) => write!(f, "{sum:08x}"),
            Shown::Text(text) => write!(f, "{text}"),
        }
    }
}

/// Writes a kind and its values: the kind, and each value behind a space.
pub fn write_shown<W: fmt::Write>(
    f: &mut fmt::Formatter<W>,
    kind: &str,
    values: &[Shown],
) -> fmt::Result
    ensures { DisplaysOnOk W.write_str_gives f.old result (Some (shown_text (kind.now, map value_of values.now))) f.new }
{
    write!(f, "{kind}")?;
    for value in values {
        write!(f, " {value}")?;
    }
    Ok(())
}
