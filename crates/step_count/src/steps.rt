//! A counter of steps that takes no bytes.
ghost use Rattle.std.specs.Prelude.{◌≡◌, ◌+◌, ◌<◌, ◌≤◌, ◌↔◌, IsTrue};
ghost use Rattle.std.specs.Ordering.{nat_cmp};

use std::cmp::Ordering;
use std::marker::Model;
use std::sync::ledger::{Blank, Book, Ledger, Share};

/// How many steps were taken. It takes no bytes, and contracts see it as the number.
#[derive(Drop)]
pub struct Steps<L: Ledger> {
    book: Book<L>,
    share: Share<L>,
}

impl<L: Ledger> Model for Steps<L> {
    ghost use Rattle.std.specs.Prelude.{ℕ, ◌<◌};

    ghost Value = { ℕ };

    ghost view = { λ steps. steps.book.total };

    ghost invariant = { λ steps. 0 < steps.share.parts };
}

impl<L: Ledger> Steps<L> {
    /// No step yet.
    pub fn new(blank: Blank) -> Self
        requires name { blank.name ≡ L.name }
        requires parts { blank.parts ≡ L.parts }
        requires some { 0 < blank.parts }
        ensures { result ≡ 0 }
    {
        let (book, share) = blank.open::<L>();
        Steps { book, share }
    }

    /// Whether a kept key is at most so great, by one step.
    pub fn is_at_most(&mut self, key: u64, limit: u64) -> bool
        ensures answer { IsTrue result ↔ (key ≤ limit) }
        ensures step { self.new ≡ self.old + 1 }
    {
        self.book.add(&mut self.share, 1);
        key <= limit
    }

    /// How a kept key compares with another, by one step.
    pub fn compare(&mut self, key: u64, other: u64) -> Ordering
        ensures answer { result ≡ nat_cmp key other }
        ensures step { self.new ≡ self.old + 1 }
    {
        self.book.add(&mut self.share, 1);
        key.cmp(&other)
    }
}
