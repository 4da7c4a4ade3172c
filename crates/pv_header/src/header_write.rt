//! Writing a header.
ghost use Rattle.std.specs.Prelude.{◌≡◌, ◌≢◌, ◌≤◌, ◌<◌, ◌+◌, ◌^◌, [], ◌++◌, length, take, All};
ghost use Rattle.byteorder.specs.Endian.{little_bytes};
ghost use Rattle.sector_base.specs.Fields.{with_bytes};
ghost use Rattle.pv_header.specs.PvHeader.{IsPvHeader, header_bytes};

use crate::PvHeader;
use crate::list_write::put_list;
use sector_base::{Bytes512, put_u32, put_u64};

// The version of the extension that is written.
const VERSION: u32 = 2;

// The bytes of the pair that ends a list.
const LIST_END: u32 = 16;

/// Writes the header into bytes 32 to 512 of the sector of its label, with version 2 and no bootloader area. The rest of
/// the sector becomes zeros.
pub fn write_pv(header: &PvHeader, into: &mut Bytes512)
    requires { length header.now.data_areas + length header.now.areas ≤ 24 }
    ensures bytes { into.new ≡ take 32 into.old ++ header_bytes header.now }

    // What is written is read again as the same fields, but for the version.
    ensures read_again { All (λ area. area.offset ≢ 0) (header.now.data_areas ++ header.now.areas)
        → IsPvHeader into.new (record header.now { version = 2 }) [] }
{
    let _bytes: &[u8] = into.as_bytes();
    into.put(32, &[0; 480]);
    into.put(32, &header.id.plain());
    put_u64(into, 64, header.device_bytes);
    let data_end = put_list(into, 72, header.data_areas.as_slice());
    let areas_end = put_list(into, data_end + LIST_END, header.areas.as_slice());
    put_extension(into, areas_end + LIST_END, header.flags);
}

// Puts the version and these flags at the place `at`.
fn put_extension(into: &mut Bytes512, at: u32, flags: u32)
    requires { at + 8 ≤ 512 }
    ensures bytes { into.new ≡ with_bytes into.old at (little_bytes 4 2 ++ little_bytes 4 flags) }
    ensures fits { flags < 2 ^ 32 }
{
    let _bytes: &[u8] = into.as_bytes();
    put_u32(into, at, VERSION);
    put_u32(into, at + 4, flags);
}
