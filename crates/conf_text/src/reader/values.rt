//! What a key has: numbers, strings and lists of them.
ghost use Rattle.std.specs.Prelude.{◌≡◌, Ok, map};
ghost use Rattle.conf_text.specs.Entries.{Assign, Many};
ghost use Rattle.conf_text.specs.Reader as spec;
ghost use Rattle.conf_text.specs.ReaderViews.{Gives, reader_view};
ghost use Rattle.conf_text.specs.Views.{scalar_view, entry_view};
ghost use Rattle.conf_text.specs.Outline.{IsKeyed};

use crate::kind::Kind;
use crate::number::number_of;
use crate::reader::{Mode, Phase, Reader};
use crate::refusal::ConfRefusal;
use crate::tree::{ConfEntry, Scalar};
use std::mem;

impl<'a> Reader<'a> {
    pub(super) fn begin_value(&mut self, kind: Kind, byte: u8, at: usize) -> Result<(), ConfRefusal>
        ensures { Gives (λ _. reader_view self.new) result (spec.value_begun kind byte at (reader_view self.old)) }
    {
        match kind {
            Kind::Digit => self.begin_word(byte),
            Kind::Quote => {
                self.mode = Mode::String(at);
                Ok(())
            }
            Kind::OpenBracket => {
                self.phase = Phase::First(at);
                Ok(())
            }
            _ => Err(ConfRefusal::BadToken(at)),
        }
    }

    pub(super) fn begin_first(&mut self, kind: Kind, byte: u8, at: usize) -> Result<(), ConfRefusal>
        ensures { Gives (λ _. reader_view self.new) result (spec.first_begun kind byte at (reader_view self.old)) }
    {
        match kind {
            Kind::Digit => self.begin_word(byte),
            Kind::Quote => {
                self.mode = Mode::String(at);
                Ok(())
            }
            Kind::CloseBracket => self.add_list(Vec::new(self.alloc)),
            _ => Err(ConfRefusal::BadToken(at)),
        }
    }

    pub(super) fn begin_next(&mut self, kind: Kind, byte: u8, at: usize) -> Result<(), ConfRefusal>
        ensures { Gives (λ _. reader_view self.new) result (spec.next_begun kind byte at (reader_view self.old)) }
    {
        match kind {
            Kind::Digit => self.begin_word(byte),
            Kind::Quote => {
                self.mode = Mode::String(at);
                Ok(())
            }
            _ => Err(ConfRefusal::BadToken(at)),
        }
    }

    pub(super) fn go_on_array(
        &mut self,
        place: usize,
        kind: Kind,
        at: usize,
    ) -> Result<(), ConfRefusal>
        ensures { Gives (λ _. reader_view self.new) result (spec.after_begun place kind at (reader_view self.old)) }
    {
        match kind {
            Kind::Comma => {
                self.phase = Phase::Next(place);
                Ok(())
            }
            Kind::CloseBracket => {
                let mut scalars = mem::replace(&mut self.scalars, Vec::new(self.alloc));
                scalars.shrink_to_fit();
                self.add_list(scalars)
            }
            _ => Err(ConfRefusal::BadToken(at)),
        }
    }

    fn add_list(&mut self, scalars: Vec<Scalar>) -> Result<(), ConfRefusal>
        ensures { Gives (λ _. reader_view self.new) result (Ok (spec.with_entry (reader_view self.old) (Assign self.old.name.now (Many (map scalar_view scalars.items))))) }
    {
        self.add_key(ConfEntry::List(self.name, scalars))
    }

    fn add_key(&mut self, entry: ConfEntry<'a>) -> Result<(), ConfRefusal>
        requires { IsKeyed self.old.name.now (entry_view entry) }
        ensures { Gives (λ _. reader_view self.new) result (Ok (spec.with_entry (reader_view self.old) (entry_view entry.entry))) }
    {
        self.outline.add_key(self.name, entry)?;
        self.begin_entry();
        Ok(())
    }

    pub(super) fn add_scalar(&mut self, scalar: Scalar) -> Result<(), ConfRefusal>
        ensures { Gives (λ _. reader_view self.new) result (Ok (spec.with_scalar self.old.phase (reader_view self.old) (scalar_view scalar))) }
    {
        match self.phase {
            Phase::First(place) | Phase::Next(place) => {
                self.scalars.push(scalar)?;
                self.phase = Phase::After(place);
                Ok(())
            }
            _ => match scalar {
                Scalar::Number(number) => self.add_key(ConfEntry::Number(self.name, number)),
                Scalar::Text(text) => self.add_key(ConfEntry::Text(self.name, text)),
            },
        }
    }

    // The number at hand ends. It begins at this place.
    pub(super) fn end_number(&mut self, from: usize) -> Result<(), ConfRefusal>
        ensures { Gives (λ _. reader_view self.new) result (spec.numbered from (reader_view self.old)) }
    {
        match number_of(&self.word) {
            None => Err(ConfRefusal::NumberTooWide(from)),
            Some(number) => {
                self.mode = Mode::Between;
                self.word.clear();
                self.add_scalar(Scalar::Number(number))
            }
        }
    }
}
