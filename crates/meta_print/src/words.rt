//! Status words.
ghost use Rattle.std.specs.Prelude.{[], ◌∷◌, map, IfOk, OnErr};
ghost use Rattle.conf_text.specs.Entries.{Assign, Many, Text};
ghost use Rattle.conf_text.specs.Sinks.{Prints};
ghost use Rattle.meta_print.specs.WordsSet.{words_set};

use conf_text::{TextSink, begin_list, end_list, list_text};
use std::alloc::AllocError;

// A key with a list of the words that are set.
pub(crate) fn write_words_set<S: TextSink>(
    sink: &mut S,
    key: &[u8],
    words: &[(bool, &[u8])],
) -> Result<(), AllocError>
    ensures added { IfOk result (λ _. Prints S.Adds sink.old (Assign key.now (Many (map Text (words_set words.now))) ∷ []) sink.new) }
    ensures failed { OnErr result S.MayFail }
{
    let mut count = 0;
    begin_list(sink, key)?;
    for &(is_set, word) in words {
        if is_set {
            list_text(sink, count, word)?;
            count += 1;
        }
    }
    end_list(sink)
}
