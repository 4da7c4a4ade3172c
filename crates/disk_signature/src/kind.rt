//! What a disk is used for.
ghost use Rattle.std.specs.Prelude.{◌≡◌};
ghost use Rattle.disk_signature.specs.Names.{name_of};

/// What a signature tells of the disk.
#[derive(Clone, Copy, Debug, PartialEq, Eq)]
pub enum Kind {
    /// A label of lvm2's. A disk is asked for signatures where it has no label that is whole.
    DamagedLabel,
    Lvm1,
    Luks,
    BitLocker,
    MdRaid,
    IntelRaid,
    DdfRaid,
    Bcache,
    Vdo,
    BlueStore,
    Swap,
    Ext,
    Xfs,
    Btrfs,
    Bcachefs,
    Jfs,
    ReiserFs,
    F2fs,
    Erofs,
    Nilfs2,
    Gfs2,
    Ocfs2,
    Vmfs,
    Squashfs,
    Cramfs,
    Iso9660,
    Udf,
    HfsPlus,
    Hfs,
    Apfs,
    Minix,
    Ntfs,
    ExFat,
    Fat,
    Gpt,
    Dos,
}

impl Kind {
    /// As an administrator knows it.
    pub fn name(self) -> &'static str
        ensures { result.now ≡ name_of self }
    {
        match self {
            Kind::DamagedLabel => "LVM2 label that is damaged",
            Kind::Lvm1 => "LVM1 physical volume",
            Kind::Luks => "LUKS encrypted volume",
            Kind::BitLocker => "BitLocker encrypted volume",
            Kind::MdRaid => "Linux RAID member",
            Kind::IntelRaid => "Intel RAID member",
            Kind::DdfRaid => "DDF RAID member",
            Kind::Bcache => "bcache device",
            Kind::Vdo => "VDO device",
            Kind::BlueStore => "Ceph BlueStore device",
            Kind::Swap => "swap space",
            Kind::Ext => "ext file system",
            Kind::Xfs => "XFS file system",
            Kind::Btrfs => "Btrfs file system",
            Kind::Bcachefs => "bcachefs file system",
            Kind::Jfs => "JFS file system",
            Kind::ReiserFs => "ReiserFS file system",
            Kind::F2fs => "F2FS file system",
            Kind::Erofs => "EROFS file system",
            Kind::Nilfs2 => "NILFS2 file system",
            Kind::Gfs2 => "GFS2 file system",
            Kind::Ocfs2 => "OCFS2 file system",
            Kind::Vmfs => "VMFS volume",
            Kind::Squashfs => "SquashFS file system",
            Kind::Cramfs => "cramfs file system",
            Kind::Iso9660 => "ISO 9660 file system",
            Kind::Udf => "UDF file system",
            Kind::HfsPlus => "HFS+ file system",
            Kind::Hfs => "HFS file system",
            Kind::Apfs => "APFS container",
            Kind::Minix => "Minix file system",
            Kind::Ntfs => "NTFS file system",
            Kind::ExFat => "exFAT file system",
            Kind::Fat => "FAT file system",
            Kind::Gpt => "GUID partition table",
            Kind::Dos => "DOS partition table or boot sector",
        }
    }
}
