//! Sources of numbers.
ghost use Rattle.std.specs.Prelude.{◌≡◌, ◌+◌, ℕ, List, ◌∷◌, length};

/// A source of 64-bit numbers, which never ends. Contracts see, for each `n`, the list of its next `n` numbers.
pub trait Words64 {
    ghost upcoming: { Self → ℕ → List ℕ };

    /// The next number, by which the source moves on.
    fn next(&mut self) -> u64
        ensures { (n : ℕ) → upcoming self.old (n + 1) ≡ result ∷ upcoming self.new n };

    ghost counted: { (words : Self) (n : ℕ) → length (upcoming words n) ≡ n };
}
