//! Names, braces and what stands between them.
ghost use Rattle.std.specs.Prelude.{◌≡◌};
ghost use Rattle.conf_text.specs.Reader as spec;
ghost use Rattle.conf_text.specs.ReaderViews.{Gives, IsWordAt, reader_view};

use crate::kind::Kind;
use crate::reader::{Mode, Phase, Reader};
use crate::refusal::ConfRefusal;

impl<'a> Reader<'a> {
    pub(super) fn begin_item(&mut self, kind: Kind, byte: u8, at: usize) -> Result<(), ConfRefusal>
        ensures { Gives (λ _. reader_view self.new) result (spec.item_begun kind byte at (reader_view self.old)) }
    {
        match kind {
            Kind::Digit | Kind::Letter => self.begin_word(byte),
            Kind::CloseBrace => self.close_section(at),
            _ => Err(ConfRefusal::BadToken(at)),
        }
    }

    pub(super) fn begin_named(&mut self, kind: Kind, at: usize) -> Result<(), ConfRefusal>
        ensures { Gives (λ _. reader_view self.new) result (spec.named_begun kind at (reader_view self.old)) }
    {
        match kind {
            Kind::Equals => {
                self.phase = Phase::Wanted;
                Ok(())
            }
            Kind::OpenBrace => self.open_section(at),
            _ => Err(ConfRefusal::BadToken(at)),
        }
    }

    fn open_section(&mut self, at: usize) -> Result<(), ConfRefusal>
        ensures { Gives (λ _. reader_view self.new) result (spec.opened at (reader_view self.old)) }
    {
        if self.outline.depth() >= 16 {
            return Err(ConfRefusal::TooDeep(at));
        }
        self.outline.open(self.alloc, self.name, at)?;
        self.begin_entry();
        Ok(())
    }

    fn close_section(&mut self, at: usize) -> Result<(), ConfRefusal>
        ensures { Gives (λ _. reader_view self.new) result (spec.closed at (reader_view self.old) (reader_view self.old).braces) }
    {
        if !self.outline.close()? {
            return Err(ConfRefusal::BadToken(at));
        }
        self.begin_entry();
        Ok(())
    }

    // An entry may begin.
    pub(super) fn begin_entry(&mut self)
        ensures { reader_view self.new ≡ spec.entry_begun (reader_view self.old) }
    {
        self.phase = Phase::Item;
        self.name = &[];
        self.scalars = Vec::new(self.alloc);
    }

    // The name at hand ends. It begins at this place.
    pub(super) fn end_name(&mut self, text: &'a [u8], from: usize) -> Result<(), ConfRefusal>
        requires { IsWordAt text.now from self.old.word.items }
        ensures { Gives (λ _. reader_view self.new) result (spec.named from (reader_view self.old)) }
    {
        let len = self.word.len();
        let name = &text[from..from + len];
        if self.outline.has(name) {
            return Err(ConfRefusal::DuplicateKey(from));
        }
        self.name = name;
        self.word.clear();
        self.mode = Mode::Between;
        self.phase = Phase::Named;
        Ok(())
    }
}
