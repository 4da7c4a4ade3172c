//! Words and strings.
ghost use Rattle.std.specs.Prelude.{◌≡◌, ◌-◌, ◌≤◌, Ok, length, take};
ghost use Rattle.conf_text.specs.Reader as spec;
ghost use Rattle.conf_text.specs.ReaderViews.{Gives, EndsIn, reader_view};

use crate::kind::Kind;
use crate::reader::{Mode, Phase, Reader};
use crate::refusal::ConfRefusal;
use crate::tree::Scalar;

impl<'a> Reader<'a> {
    pub(super) fn begin_word(&mut self, byte: u8) -> Result<(), ConfRefusal>
        ensures { Gives (λ _. reader_view self.new) result (Ok (spec.word_begun byte (reader_view self.old))) }
    {
        self.word.clear();
        self.word.push(byte)?;
        self.mode = Mode::Word;
        Ok(())
    }

    fn add_byte(&mut self, byte: u8) -> Result<(), ConfRefusal>
        ensures { Gives (λ _. reader_view self.new) result (Ok (spec.with_byte byte (reader_view self.old))) }
    {
        self.word.push(byte)?;
        Ok(())
    }

    pub(super) fn go_on_word(
        &mut self,
        text: &'a [u8],
        kind: Kind,
        byte: u8,
        at: usize,
    ) -> Result<(), ConfRefusal>
        requires inside { at ≤ length text.now }
        requires word { EndsIn (take at text.now) self.old.word.items }
        ensures { Gives (λ _. reader_view self.new) result (spec.in_word self.old.phase kind byte at (reader_view self.old)) }
    {
        match kind {
            Kind::Digit => self.add_byte(byte),
            Kind::Letter => match self.phase {
                Phase::Item => self.add_byte(byte),
                _ => Err(ConfRefusal::BadToken(at)),
            },
            _ => match self.end_word(text, at) {
                Ok(()) => self.begin(kind, byte, at),
                Err(refusal) => Err(refusal),
            },
        }
    }

    // The word at hand ends before this place.
    pub(super) fn end_word(&mut self, text: &'a [u8], at: usize) -> Result<(), ConfRefusal>
        requires inside { at ≤ length text.now }
        requires word { EndsIn (take at text.now) self.old.word.items }
        ensures { Gives (λ _. reader_view self.new) result (spec.word_ended self.old.phase (at - length self.old.word.items) (reader_view self.old)) }
    {
        let from = at.saturating_sub(self.word.as_slice().len());
        match self.phase {
            Phase::Item => self.end_name(text, from),
            _ => self.end_number(from),
        }
    }

    pub(super) fn go_on_string(
        &mut self,
        place: usize,
        kind: Kind,
        byte: u8,
        at: usize,
    ) -> Result<(), ConfRefusal>
        ensures { Gives (λ _. reader_view self.new) result (spec.in_string place kind byte at (reader_view self.old)) }
    {
        match kind {
            Kind::Quote => {
                let text = Vec::from_slice(self.alloc, &self.word)?;
                self.word.clear();
                self.mode = Mode::Between;
                self.add_scalar(Scalar::Text(text))
            }
            Kind::Backslash => {
                self.mode = Mode::Escape(place);
                Ok(())
            }
            Kind::LineFeed | Kind::Zero => Err(ConfRefusal::BadToken(at)),
            _ => self.add_byte(byte),
        }
    }

    pub(super) fn go_on_escape(
        &mut self,
        place: usize,
        kind: Kind,
        byte: u8,
        at: usize,
    ) -> Result<(), ConfRefusal>
        ensures { Gives (λ _. reader_view self.new) result (spec.in_escape place kind byte at (reader_view self.old)) }
    {
        match kind {
            Kind::Quote | Kind::Backslash => {
                self.mode = Mode::String(place);
                self.add_byte(byte)
            }
            _ => Err(ConfRefusal::BadToken(at)),
        }
    }
}
