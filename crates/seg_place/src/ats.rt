//! A few places.
ghost use Rattle.std.specs.Prelude.{◌≡◌, ◌<◌, ◌≤◌, [], ◌∷◌, ◌++◌, length};

use sector_base::At;
use std::marker::Model;

// What stands where no place was put.
const NOWHERE: At = At { pv: 0, sector: 0 };

/// At most eight places, which it holds in itself. Contracts see the list of them.
#[derive(Debug, Drop)]
pub struct Ats {
    places: [At; 8],
    len: usize,
}

impl Model for Ats {
    ghost use Rattle.std.specs.Prelude.{◌≡◌, ◌≤◌, List, length, take};
    ghost use Rattle.sector_base.specs.declared.places.At.{At};

    ghost Value = { List At };

    ghost view = { λ ats. take ats.len ats.places };

    ghost invariant = { λ ats. (ats.len ≤ 8) × (length ats.places ≡ 8) };
}

impl Ats {
    /// No place.
    pub fn new() -> Self
        ensures { result ≡ [] }
    {
        Ats {
            places: [NOWHERE; 8],
            len: 0,
        }
    }

    /// How many they are.
    pub fn len(&self) -> usize
        ensures count { result ≡ length self.now }
        ensures few { result ≤ 8 }
    {
        self.len
    }

    /// All of them.
    pub fn as_slice(&self) -> &[At]
        ensures { result.now ≡ self.now }
    {
        &self.places[..self.len]
    }

    /// Puts a place behind the others.
    pub fn push(&mut self, at: At)
        requires { length self.old < 8 }
        ensures { self.new ≡ self.old ++ at ∷ [] }
    {
        self.places[self.len] = at;
        self.len += 1;
    }
}
