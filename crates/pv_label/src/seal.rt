//! Writing the label.
ghost use Rattle.std.specs.Prelude.{◌≡◌, ◌<◌, drop};
ghost use Rattle.pv_label.specs.Label.{IsLabel};
ghost use Rattle.pv_label.specs.LabelBytes.{with_label};

use sector_base::{Bytes512, LVM_CRC_START, crc, put_u32, put_u64};

/// Writes the label header of the sector of this number into bytes 0 to 32, and changes no other byte.
pub fn seal_label(contents: &mut Bytes512, sector: u32)
    requires { sector < 4 }
    ensures label { IsLabel contents.new sector }
    ensures rest { drop 32 contents.new ≡ drop 32 contents.old }
    ensures bytes { contents.new ≡ with_label contents.old sector }
{
    put_u32(contents, 20, 32);
    contents.put(24, b"LVM2 001");
    let sum = crc(LVM_CRC_START, &contents.as_bytes()[20..]);
    contents.put(0, b"LABELONE");
    put_u64(contents, 8, u64::from(sector));
    put_u32(contents, 16, sum);
}
