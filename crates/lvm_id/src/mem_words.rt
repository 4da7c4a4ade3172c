//! Numbers given beforehand.
ghost use Rattle.std.specs.Prelude.{◌≡◌, ◌≤◌, ℕ, List, length, drop, ◌++◌, ◌∷◌, ◌+◌, take, replicate};
ghost use Rattle.lvm_id.specs.Words.{given_words, length-given_words};

use crate::Words64;
use std::marker::Model;

/// Gives the numbers of a list, and then zeros. Contracts see the list of those that are left.
#[derive(Debug, Drop)]
pub struct MemWords {
    words: Vec<u64>,
    drawn: usize,
}

impl Model for MemWords {
    ghost Value = { List ℕ };

    ghost view = { λ m. drop m.drawn m.words.items };
}

impl MemWords {
    /// Gives these numbers first.
    pub fn new(words: Vec<u64>) -> Self
        ensures left { result ≡ words.items }
        ensures upcoming { (n : ℕ) → ⟦<MemWords as Words64>⟧.upcoming result n ≡ take n (words.items ++ replicate n 0) }
    {
        MemWords { words, drawn: 0 }
    }
}

impl Words64 for MemWords {
    ghost upcoming = { given_words };

    ghost counted = { length-given_words };

    fn next(&mut self) -> u64 {
        if self.drawn < self.words.len() {
            let word = self.words[self.drawn];
            self.drawn += 1;
            word
        } else {
            0
        }
    }
}
