//! Bytes put into a text.
ghost use Rattle.std.specs.Prelude.{◌≡◌, ◌≤◌, ◌+◌, length};
ghost use Rattle.lvm_id.specs.Put.{with_bytes};

/// Puts these bytes in place of as many from the place `at` on.
pub fn put(text: &mut [u8], at: usize, bytes: &[u8])
    requires { at + length bytes.now ≤ length text.old }
    ensures { text.new ≡ with_bytes text.old at bytes.now }
{
    text[at..at + bytes.len()].copy_from_slice(bytes);
}
