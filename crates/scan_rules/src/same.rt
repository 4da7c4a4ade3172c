//! Whether ids, or texts, are the same.
ghost use Rattle.std.specs.Prelude.{◌≡◌};
ghost use Rattle.std.specs.Str.{bytes_eq};

use lvm_id::LvmId;
use sector_base::Text;

/// Whether two ids are the same.
pub fn same_id(a: &LvmId, b: &LvmId) -> bool
    ensures { result ≡ bytes_eq a.now b.now }
{
    a.plain() == b.plain()
}

// Whether two texts are the same.
pub(crate) fn same_text(a: &Text, b: &Text) -> bool
    ensures { result ≡ bytes_eq a.now b.now }
{
    a.as_bytes() == b.as_bytes()
}
