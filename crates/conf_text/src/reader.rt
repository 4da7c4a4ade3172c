//! Reading a text byte by byte: what a byte does, by what the byte before it belongs to.
ghost use Rattle.std.specs.Prelude.{◌≡◌, ◌<◌, ◌-◌, get_or, length, take, map};
ghost use Rattle.conf_text.specs.Reader as spec;
ghost use Rattle.conf_text.specs.ReaderViews.{Gives, IsWordOf, reader_view};
ghost use Rattle.conf_text.specs.Views.{entry_view};

mod items;
mod values;
mod words;

use crate::kind::{Kind, kind_of};
use crate::outline::Outline;
use crate::refusal::ConfRefusal;
use crate::tree::{ConfEntry, Scalar};
use std::alloc::Global;

/// What the last byte belongs to. A string has the place where it begins.
#[derive(Clone, Copy, Debug, PartialEq, Eq)]
pub enum Mode {
    Between,
    Comment,
    Word,
    String(usize),
    Escape(usize),
}

/// What may come next. An array has the place where it begins.
#[derive(Clone, Copy, Debug, PartialEq, Eq)]
pub enum Phase {
    Item,
    Named,
    Wanted,
    First(usize),
    Next(usize),
    After(usize),
}

/// What was read so far.
#[derive(Drop)]
pub struct Reader<'a> {
    alloc: Global,
    mode: Mode,
    phase: Phase,
    // The word or string at hand, and of the entry at hand the name and the scalars.
    word: Vec<u8>,
    name: &'a [u8],
    scalars: Vec<Scalar>,
    outline: Outline<'a>,
}

impl<'a> Reader<'a> {
    /// Nothing was read.
    pub(crate) fn start(alloc: Global) -> Self
        ensures { reader_view result ≡ spec.start }
    {
        Reader {
            alloc,
            mode: Mode::Between,
            phase: Phase::Item,
            word: Vec::new(alloc),
            name: &[],
            scalars: Vec::new(alloc),
            outline: Outline::new(alloc),
        }
    }

    /// Reads the byte of the text at this place.
    #[tactic(auto, unfolding(crate::specs::Reader::step))]
    pub(crate) fn step(&mut self, text: &'a [u8], at: usize) -> Result<(), ConfRefusal>
        requires inside { at < length text.now }
        requires word { IsWordOf self.old.mode (take at text.now) self.old.word.items }
        ensures { Gives (λ _. reader_view self.new) result (spec.step at (get_or text.now at 0) (reader_view self.old)) }
    {
        let byte = text[at];
        let kind = kind_of(byte);
        match self.mode {
            Mode::Between => self.begin(kind, byte, at),
            Mode::Comment => self.go_on_comment(kind, at),
            Mode::Word => self.go_on_word(text, kind, byte, at),
            Mode::String(place) => self.go_on_string(place, kind, byte, at),
            Mode::Escape(place) => self.go_on_escape(place, kind, byte, at),
        }
    }

    fn begin(&mut self, kind: Kind, byte: u8, at: usize) -> Result<(), ConfRefusal>
        ensures { Gives (λ _. reader_view self.new) result (spec.begun self.old.phase kind byte at (reader_view self.old)) }
    {
        match kind {
            Kind::Blank | Kind::LineFeed => {
                self.mode = Mode::Between;
                Ok(())
            }
            Kind::Hash => {
                self.mode = Mode::Comment;
                Ok(())
            }
            _ => self.begin_token(kind, byte, at),
        }
    }

    fn begin_token(&mut self, kind: Kind, byte: u8, at: usize) -> Result<(), ConfRefusal>
        ensures { Gives (λ _. reader_view self.new) result (spec.token_begun self.old.phase kind byte at (reader_view self.old)) }
    {
        match self.phase {
            Phase::Item => self.begin_item(kind, byte, at),
            Phase::Named => self.begin_named(kind, at),
            Phase::Wanted => self.begin_value(kind, byte, at),
            Phase::First(_) => self.begin_first(kind, byte, at),
            Phase::Next(_) => self.begin_next(kind, byte, at),
            Phase::After(place) => self.go_on_array(place, kind, at),
        }
    }

    fn go_on_comment(&mut self, kind: Kind, at: usize) -> Result<(), ConfRefusal>
        ensures { Gives (λ _. reader_view self.new) result (spec.in_comment kind at (reader_view self.old)) }
    {
        match kind {
            Kind::LineFeed => {
                self.mode = Mode::Between;
                Ok(())
            }
            Kind::Zero => Err(ConfRefusal::BadToken(at)),
            _ => Ok(()),
        }
    }

    // What the end of the text is between tokens.
    fn end_between(self, at: usize) -> Result<Vec<ConfEntry<'a>>, ConfRefusal>
        ensures { Gives (λ es. map entry_view es.items) result (spec.ended_between self.entry.phase (reader_view self.entry).braces at (reader_view self.entry)) }
    {
        match self.phase {
            Phase::First(place) | Phase::Next(place) | Phase::After(place) => {
                Err(ConfRefusal::Unclosed(place))
            }
            phase => match self.outline.last_brace() {
                Some(place) => Err(ConfRefusal::Unclosed(place)),
                None => match phase {
                    Phase::Item => Ok(self.outline.into_entries()),
                    _ => Err(ConfRefusal::BadToken(at)),
                },
            },
        }
    }

    /// The entries, where the text ends here.
    #[tactic(auto, unfolding(crate::specs::Reader::ended))]
    pub(crate) fn end(mut self, text: &'a [u8]) -> Result<Vec<ConfEntry<'a>>, ConfRefusal>
        requires { IsWordOf self.mode text.now self.word.items }
        ensures { Gives (λ es. map entry_view es.items) result (spec.ended (length text.now) (reader_view self.entry)) }
    {
        match self.mode {
            Mode::String(place) | Mode::Escape(place) => Err(ConfRefusal::Unclosed(place)),
            Mode::Word => match self.end_word(text, text.len()) {
                Ok(()) => self.end_between(text.len()),
                Err(refusal) => Err(refusal),
            },
            _ => self.end_between(text.len()),
        }
    }
}
