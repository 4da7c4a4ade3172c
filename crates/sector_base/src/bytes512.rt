//! One sector.
ghost use Rattle.std.specs.Prelude.{◌≡◌, ◌+◌, ◌≤◌, ℕ, List, length, replicate};
ghost use Rattle.sector_base.specs.Fields.{with_bytes};
ghost use Rattle.sector_base.specs.Sectors.{IsSector};

use std::marker::Model;

/// The 512 bytes of a sector. Contracts see it as the list of its bytes.
#[derive(Clone, Copy, Debug, Drop, PartialEq, Eq)]
pub struct Bytes512 {
    bytes: [u8; 512],
}

impl Model for Bytes512 {
    ghost use Rattle.std.specs.Prelude.{ℕ, List};
    ghost use Rattle.sector_base.specs.Sectors.{IsSector};

    ghost Value = { List ℕ };

    ghost view = { λ s. s.bytes };

    ghost invariant = { λ s. IsSector s.bytes };

    ghost inverse = { λ v. record { bytes = v } };
}

impl Bytes512 {
    /// A sector of these bytes.
    pub fn new(bytes: [u8; 512]) -> Self
        ensures { result ≡ bytes }
    {
        see_sector(&bytes);
        Bytes512 { bytes }
    }

    /// A sector of zeros.
    pub fn zeroed() -> Self
        ensures { result ≡ replicate 512 0 }
    {
        Bytes512::new([0; 512])
    }

    /// All 512 bytes.
    pub fn as_bytes(&self) -> &[u8; 512]
        ensures value { result.now ≡ self.now }
        ensures valid { IsSector self.now }
    {
        &self.bytes
    }

    /// Puts these bytes in place of as many from the place `at` on.
    pub fn put(&mut self, at: usize, bytes: &[u8])
        requires { at + length bytes.now ≤ 512 }
        ensures { self.new ≡ with_bytes self.old at bytes.now }
    {
        self.bytes[at..at + bytes.len()].copy_from_slice(bytes);
    }
}

// These bytes are a sector.
fn see_sector(bytes: &[u8; 512])
    ensures { IsSector bytes.now }
{
    let all: &[u8] = bytes;
    let _first = all.first();
}
