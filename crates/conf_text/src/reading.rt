//! Reading a text.
ghost use Rattle.std.specs.Prelude.{◌≡◌, ◌≢◌, ℕ, List, map, MatchResult};
ghost use Rattle.conf_text.specs.declared.refusal.ConfRefusal.TheVariants.{NoMemory};
ghost use Rattle.conf_text.specs.Entries.{Conf};
ghost use Rattle.conf_text.specs.Grammar.{IsTextOf};
ghost use Rattle.conf_text.specs.Reader.{reading};
ghost use Rattle.conf_text.specs.ReaderViews.{Gives};
ghost use Rattle.conf_text.specs.Refusals.{IsCause};
ghost use Rattle.conf_text.specs.Views.{entry_view};

use crate::reader::Reader;
use crate::refusal::ConfRefusal;
use crate::tree::{ConfEntry, Tree};
use std::alloc::Global;

// The entries of a text.
fn entries_of<'a>(alloc: Global, text: &'a [u8]) -> Result<Vec<ConfEntry<'a>>, ConfRefusal>
    ensures { Gives (λ es. map entry_view es.items) result (reading text.now) }
{
    let mut reader = Reader::start(alloc);
    for at in 0..text.len() {
        if let Err(refusal) = reader.step(text, at) {
            return Err(refusal);
        }
    }
    reader.end(text)
}

/// The tree of a text, or why it has none: `BadToken`, `Unclosed`, `DuplicateKey`, `NumberTooWide` or `TooDeep`, whichever
/// is met first from the left, or `NoMemory`, whatever the text.
pub fn read_conf<'a>(alloc: Global, text: &'a [u8]) -> Result<Tree<'a>, ConfRefusal>
    ensures { MatchResult result (IsTextOf text.now) (IsCause text.now) }
{
    match entries_of(alloc, text) {
        Ok(entries) => Ok(Tree::from_vec(entries)),
        Err(refusal) => Err(refusal),
    }
}

/// Of any text, one tree or one cause holds at most; so each refusal comes exactly where it is the cause.
pub fn one_outcome()
    ensures trees { (text : List ℕ) (a b : Conf) → IsTextOf text a → IsTextOf text b → a ≡ b }
    ensures refused { (text : List ℕ) (tree : Conf) (refusal : ConfRefusal) → refusal ≢ NoMemory → IsTextOf text tree → ¬ IsCause text refusal }
    ensures causes { (text : List ℕ) (a b : ConfRefusal) → a ≢ NoMemory → b ≢ NoMemory → IsCause text a → IsCause text b → a ≡ b }
{}
