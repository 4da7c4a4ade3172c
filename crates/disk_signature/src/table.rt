//! The signatures that are known.
//!
//! Their layouts are public: the superblocks that libblkid of util-linux documents, the headers of the Linux kernel, the
//! LUKS2 on-disk format, SNIA's Common RAID Disk Data Format, ECMA-119 and ECMA-167 of optical disks and the UEFI
//! specification. The table has what the signature check of lvm2 finds most, and no ZFS, whose signature moves.
ghost use Rattle.std.specs.Prelude.{◌≡◌, map};
ghost use Rattle.disk_signature.specs.Table.{row_of, signatures};

use crate::Kind;
use crate::place::Place;

/// These bytes, at this place, tell this of the disk. They lie within one sector.
#[derive(Clone, Copy)]
pub struct Signature(pub Kind, pub Place, pub &'static [u8]);

impl Signature {
    /// What it tells.
    pub fn kind(&self) -> Kind
        ensures { result ≡ self.now.0 }
    {
        self.0
    }
}

/// The signatures, in the order in which a disk is asked for them: what file systems stand on before these, and file
/// systems with a boot sector before the boot sector.
pub fn signatures() -> &'static [Signature]
    ensures { map row_of result.now ≡ signatures }
{
    &SIGNATURES
}

static SIGNATURES: [Signature; 76] = [
    Signature(Kind::DamagedLabel, Place::FromStart(24), b"LVM2 001"),
    Signature(Kind::DamagedLabel, Place::FromStart(536), b"LVM2 001"),
    Signature(Kind::DamagedLabel, Place::FromStart(1_048), b"LVM2 001"),
    Signature(Kind::DamagedLabel, Place::FromStart(1_560), b"LVM2 001"),
    Signature(Kind::Lvm1, Place::FromStart(0), b"HM\x01\x00"),
    Signature(Kind::Lvm1, Place::FromStart(0), b"HM\x02\x00"),
    Signature(Kind::Luks, Place::FromStart(0), b"LUKS\xba\xbe"),
    // The second header of LUKS2.
    Signature(Kind::Luks, Place::FromStart(16_384), b"SKUL\xba\xbe"),
    Signature(Kind::Luks, Place::FromStart(32_768), b"SKUL\xba\xbe"),
    Signature(Kind::Luks, Place::FromStart(65_536), b"SKUL\xba\xbe"),
    Signature(Kind::Luks, Place::FromStart(131_072), b"SKUL\xba\xbe"),
    Signature(Kind::Luks, Place::FromStart(262_144), b"SKUL\xba\xbe"),
    Signature(Kind::Luks, Place::FromStart(524_288), b"SKUL\xba\xbe"),
    Signature(Kind::Luks, Place::FromStart(1_048_576), b"SKUL\xba\xbe"),
    Signature(Kind::Luks, Place::FromStart(2_097_152), b"SKUL\xba\xbe"),
    Signature(Kind::Luks, Place::FromStart(4_194_304), b"SKUL\xba\xbe"),
    Signature(Kind::BitLocker, Place::FromStart(3), b"-FVE-FS-"),
    // Metadata of versions 1.2, 1.1, 1.0 and 0.90, the last in both byte orders.
    Signature(Kind::MdRaid, Place::FromStart(4_096), b"\xfc\x4e\x2b\xa9"),
    Signature(Kind::MdRaid, Place::FromStart(0), b"\xfc\x4e\x2b\xa9"),
    Signature(Kind::MdRaid, Place::Md10, b"\xfc\x4e\x2b\xa9"),
    Signature(Kind::MdRaid, Place::Md090, b"\xfc\x4e\x2b\xa9"),
    Signature(Kind::MdRaid, Place::Md090, b"\xa9\x2b\x4e\xfc"),
    Signature(
        Kind::IntelRaid,
        Place::FromEnd(2),
        b"Intel Raid ISM Cfg Sig. ",
    ),
    Signature(Kind::DdfRaid, Place::FromEnd(1), b"\xde\x11\xde\x11"),
    Signature(
        Kind::Bcache,
        Place::FromStart(4_120),
        b"\xc6\x85\x73\xf6\x4e\x1a\x45\xca\x82\x65\xf5\x7f\x48\xba\x6d\x81",
    ),
    Signature(Kind::Vdo, Place::FromStart(0), b"dmvdo001"),
    Signature(
        Kind::BlueStore,
        Place::FromStart(0),
        b"bluestore block device",
    ),
    // At the end of the first page, of 4 KiB to 64 KiB.
    Signature(Kind::Swap, Place::FromStart(4_086), b"SWAPSPACE2"),
    Signature(Kind::Swap, Place::FromStart(4_086), b"SWAP-SPACE"),
    Signature(Kind::Swap, Place::FromStart(8_182), b"SWAPSPACE2"),
    Signature(Kind::Swap, Place::FromStart(8_182), b"SWAP-SPACE"),
    Signature(Kind::Swap, Place::FromStart(16_374), b"SWAPSPACE2"),
    Signature(Kind::Swap, Place::FromStart(16_374), b"SWAP-SPACE"),
    Signature(Kind::Swap, Place::FromStart(32_758), b"SWAPSPACE2"),
    Signature(Kind::Swap, Place::FromStart(32_758), b"SWAP-SPACE"),
    Signature(Kind::Swap, Place::FromStart(65_526), b"SWAPSPACE2"),
    Signature(Kind::Swap, Place::FromStart(65_526), b"SWAP-SPACE"),
    Signature(Kind::Ext, Place::FromStart(1_080), b"\x53\xef"),
    Signature(Kind::Xfs, Place::FromStart(0), b"XFSB"),
    Signature(Kind::Btrfs, Place::FromStart(65_600), b"_BHRfS_M"),
    Signature(
        Kind::Bcachefs,
        Place::FromStart(4_120),
        b"\xc6\x85\x73\xf6\x66\xce\x90\xa9\xd9\x6a\x60\xcf\x80\x3d\xf7\xef",
    ),
    Signature(Kind::Jfs, Place::FromStart(32_768), b"JFS1"),
    Signature(Kind::ReiserFs, Place::FromStart(65_588), b"ReIsErFs"),
    Signature(Kind::ReiserFs, Place::FromStart(65_588), b"ReIsEr2Fs"),
    Signature(Kind::ReiserFs, Place::FromStart(65_588), b"ReIsEr3Fs"),
    Signature(Kind::F2fs, Place::FromStart(1_024), b"\x10\x20\xf5\xf2"),
    Signature(Kind::Erofs, Place::FromStart(1_024), b"\xe2\xe1\xf5\xe0"),
    Signature(Kind::Nilfs2, Place::FromStart(1_030), b"\x34\x34"),
    Signature(Kind::Gfs2, Place::FromStart(65_536), b"\x01\x16\x19\x70"),
    Signature(Kind::Ocfs2, Place::FromStart(1_024), b"OCFSV2"),
    Signature(Kind::Ocfs2, Place::FromStart(2_048), b"OCFSV2"),
    Signature(Kind::Ocfs2, Place::FromStart(4_096), b"OCFSV2"),
    Signature(Kind::Ocfs2, Place::FromStart(8_192), b"OCFSV2"),
    Signature(Kind::Vmfs, Place::FromStart(1_048_576), b"\x0d\xd0\x01\xc0"),
    Signature(Kind::Squashfs, Place::FromStart(0), b"hsqs"),
    Signature(Kind::Cramfs, Place::FromStart(0), b"\x45\x3d\xcd\x28"),
    Signature(Kind::Iso9660, Place::FromStart(32_769), b"CD001"),
    Signature(Kind::Udf, Place::FromStart(32_769), b"BEA01"),
    Signature(Kind::Udf, Place::FromStart(34_817), b"NSR02"),
    Signature(Kind::Udf, Place::FromStart(34_817), b"NSR03"),
    Signature(Kind::HfsPlus, Place::FromStart(1_024), b"H+"),
    Signature(Kind::HfsPlus, Place::FromStart(1_024), b"HX"),
    Signature(Kind::Hfs, Place::FromStart(1_024), b"BD"),
    Signature(Kind::Apfs, Place::FromStart(32), b"NXSB"),
    Signature(Kind::Minix, Place::FromStart(1_040), b"\x7f\x13"),
    Signature(Kind::Minix, Place::FromStart(1_040), b"\x8f\x13"),
    Signature(Kind::Minix, Place::FromStart(1_040), b"\x68\x24"),
    Signature(Kind::Minix, Place::FromStart(1_040), b"\x78\x24"),
    Signature(Kind::Ntfs, Place::FromStart(3), b"NTFS    "),
    Signature(Kind::ExFat, Place::FromStart(3), b"EXFAT   "),
    Signature(Kind::Fat, Place::FromStart(54), b"FAT12   "),
    Signature(Kind::Fat, Place::FromStart(54), b"FAT16   "),
    Signature(Kind::Fat, Place::FromStart(82), b"FAT32   "),
    Signature(Kind::Gpt, Place::FromStart(512), b"EFI PART"),
    Signature(Kind::Gpt, Place::FromEnd(1), b"EFI PART"),
    Signature(Kind::Dos, Place::FromStart(510), b"\x55\xaa"),
];
