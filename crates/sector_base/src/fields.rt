//! The little-endian numbers in a sector, read and written through `byteorder`.
ghost use Rattle.std.specs.Prelude.{◌≡◌, ◌+◌, ◌≤◌};
ghost use Rattle.sector_base.specs.Fields.{field, with_field};

use crate::Bytes512;
use byteorder::{ByteOrder, LittleEndian};

/// The number in the four bytes from the place `at` on.
pub fn get_u32(s: &Bytes512, at: u32) -> u32
    requires { at + 4 ≤ 512 }
    ensures { result ≡ field 4 s.now at }
{
    LittleEndian::read_u32(&s.as_bytes()[at as usize..])
}

/// The number in the eight bytes from the place `at` on.
pub fn get_u64(s: &Bytes512, at: u32) -> u64
    requires { at + 8 ≤ 512 }
    ensures { result ≡ field 8 s.now at }
{
    LittleEndian::read_u64(&s.as_bytes()[at as usize..])
}

/// Writes the number into the four bytes from the place `at` on, and changes no other byte.
pub fn put_u32(s: &mut Bytes512, at: u32, v: u32)
    requires { at + 4 ≤ 512 }
    ensures { s.new ≡ with_field 4 s.old at v }
{
    let mut bytes = [0; 4];
    LittleEndian::write_u32(&mut bytes, v);
    s.put(at as usize, &bytes);
}

/// Writes the number into the eight bytes from the place `at` on, and changes no other byte.
pub fn put_u64(s: &mut Bytes512, at: u32, v: u64)
    requires { at + 8 ≤ 512 }
    ensures { s.new ≡ with_field 8 s.old at v }
{
    let mut bytes = [0; 8];
    LittleEndian::write_u64(&mut bytes, v);
    s.put(at as usize, &bytes);
}
