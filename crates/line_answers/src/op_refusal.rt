//! Why a line is refused.
ghost use Rattle.std.specs.Prelude.{[], ◌∷◌, is_ok};
ghost use Rattle.sector_base.specs.Shown.{number, shown_text, text};
ghost use Rattle.byte_streams.specs.Streams.{WritesText};
ghost use Rattle.line_answers.specs.Answers.{disk, shown_op};

use crate::DiskNames;
use crate::shown::{Shown, write_kind};
use byte_streams::{Failed, Sink};
use lvm_id::LvmId;
use sector_base::Text;

/// A refusal of a line, with its values, in the order in which they are tested.
#[derive(Debug, Drop)]
pub enum OpRefusal {
    /// No group was found that has this name.
    UnknownGroup(Text),
    /// A group was found, of this name.
    GroupStands(Text),
    /// The group or a volume may not be changed.
    ReadOnly,
    /// No physical volume may be added to the group or taken out.
    NotResizeable,
    /// No visible volume has this name.
    UnknownVolume(Text),
    /// A volume has this name already, or the group.
    NameTaken(Text),
    /// No disk has this name, or it holds no physical volume.
    UnknownPv(Text),
    /// The disk of this name is in the group, or stands twice.
    PvUsed(Text),
    /// The physical volume of this name is not in the group.
    NotInGroup(Text),
    /// A move stands.
    MoveStands,
    /// No move stands.
    NoMove,
    /// No leg lies on the disk with this number.
    NothingThere(u32),
    /// The volume of this name is moving.
    Locked(Text),
    /// The volume of this name has a leg on another one.
    Layered(Text),
    /// The volume of this name has no mirror segment.
    NotMirror(Text),
    /// The physical volume of this name has a leg, or the group has this volume.
    InUse(Text),
    /// The physical volume of this name is the only one.
    LastPv(Text),
    /// No physical volume would have a metadata area that is not ignored.
    NoArea,
    /// The disk has so many sectors, and needs so many.
    TooSmall(u64, u64),
    /// The size of a stripe, which does not divide the size of an extent.
    BadStripe(u64, u64),
    /// So many extents were asked for, and the volume has so many.
    NotLonger(u64, u64),
    /// So many extents were asked for, and the volume has so many.
    NotShorter(u64, u64),
    /// A read or write would end at this sector, and the volume has so many.
    PastEnd(u64, u64),
    /// There would be so many, and may be so many.
    TooMany(u64, u64),
    /// The group has no number for a further version.
    SeqnoEnd,
    /// The id stands already.
    IdTaken(LvmId),
    /// The disk with this number gives no extents.
    NotAllocatable(u32),
    /// So many extents are needed, and so many are free.
    NoSpace(u64, u64),
    /// So many extents are needed in one run, and the longest has so many.
    NoRun(u64, u64),
    /// So many physical volumes are needed, and so many have room.
    TooFewPvs(u64, u64),
    /// The text was refused by this kind.
    BadText(Text),
    /// The group of the text breaks this rule.
    BadRule(u64),
    /// The text says this of the group, and this was found.
    OtherGroup(Text, Text),
    /// The text needs so many sectors, and has room for so many.
    TooLarge(u64, u64),
}

impl OpRefusal {
    /// Writes the kind and its values, where the disks have these names.
    ///
    /// # Errors
    ///
    /// As of `write_all`.
    pub fn write<W: Sink>(&self, out: &mut W, names: &DiskNames) -> Result<(), Failed>
        ensures { WritesText (W.written out.old) (W.fault_count out.old) (shown_text (shown_op names.now self.now))
            (is_ok result) (W.written out.new) (W.fault_count out.new) }
    {
        match self {
            OpRefusal::UnknownGroup(name) => write_name(out, "UnknownGroup", name),
            OpRefusal::GroupStands(name) => write_name(out, "GroupStands", name),
            OpRefusal::ReadOnly => write_kind(out, "ReadOnly", &[]),
            OpRefusal::NotResizeable => write_kind(out, "NotResizeable", &[]),
            OpRefusal::UnknownVolume(name) => write_name(out, "UnknownVolume", name),
            OpRefusal::NameTaken(name) => write_name(out, "NameTaken", name),
            OpRefusal::UnknownPv(name) => write_name(out, "UnknownPv", name),
            OpRefusal::PvUsed(name) => write_name(out, "PvUsed", name),
            OpRefusal::NotInGroup(name) => write_name(out, "NotInGroup", name),
            OpRefusal::MoveStands => write_kind(out, "MoveStands", &[]),
            OpRefusal::NoMove => write_kind(out, "NoMove", &[]),
            OpRefusal::NothingThere(pv) => write_disk(out, "NothingThere", names, *pv),
            OpRefusal::Locked(name) => write_name(out, "Locked", name),
            OpRefusal::Layered(name) => write_name(out, "Layered", name),
            OpRefusal::NotMirror(name) => write_name(out, "NotMirror", name),
            OpRefusal::InUse(name) => write_name(out, "InUse", name),
            OpRefusal::LastPv(name) => write_name(out, "LastPv", name),
            OpRefusal::NoArea => write_kind(out, "NoArea", &[]),
            OpRefusal::TooSmall(sectors, need) => write_numbers(out, "TooSmall", *sectors, *need),
            OpRefusal::BadStripe(size, extent) => write_numbers(out, "BadStripe", *size, *extent),
            OpRefusal::NotLonger(said, now) => write_numbers(out, "NotLonger", *said, *now),
            OpRefusal::NotShorter(said, now) => write_numbers(out, "NotShorter", *said, *now),
            OpRefusal::PastEnd(end, length) => write_numbers(out, "PastEnd", *end, *length),
            OpRefusal::TooMany(count, limit) => write_numbers(out, "TooMany", *count, *limit),
            OpRefusal::SeqnoEnd => write_kind(out, "SeqnoEnd", &[]),
            OpRefusal::IdTaken(id) => write_kind(out, "IdTaken", &[Shown::Text(&id.hyphen())]),
            OpRefusal::NotAllocatable(pv) => write_disk(out, "NotAllocatable", names, *pv),
            OpRefusal::NoSpace(need, free) => write_numbers(out, "NoSpace", *need, *free),
            OpRefusal::NoRun(need, longest) => write_numbers(out, "NoRun", *need, *longest),
            OpRefusal::TooFewPvs(need, fit) => write_numbers(out, "TooFewPvs", *need, *fit),
            OpRefusal::BadText(kind) => write_name(out, "BadText", kind),
            OpRefusal::BadRule(rule) => write_kind(out, "BadRule", &[Shown::Number(*rule)]),
            OpRefusal::OtherGroup(said, found) => write_kind(
                out,
                "OtherGroup",
                &[Shown::Text(said.as_bytes()), Shown::Text(found.as_bytes())],
            ),
            OpRefusal::TooLarge(need, room) => write_numbers(out, "TooLarge", *need, *room),
        }
    }
}

// Writes a kind with a name.
fn write_name<W: Sink>(out: &mut W, kind: &str, name: &Text) -> Result<(), Failed>
    ensures { WritesText (W.written out.old) (W.fault_count out.old) (shown_text (kind.now, text name.now ∷ []))
        (is_ok result) (W.written out.new) (W.fault_count out.new) }
{
    write_kind(out, kind, &[Shown::Text(name.as_bytes())])
}

// Writes a kind with the name of the disk that has this number.
fn write_disk<W: Sink>(out: &mut W, kind: &str, names: &DiskNames, pv: u32) -> Result<(), Failed>
    ensures { WritesText (W.written out.old) (W.fault_count out.old) (shown_text (kind.now, disk names.now pv ∷ []))
        (is_ok result) (W.written out.new) (W.fault_count out.new) }
{
    write_kind(out, kind, &[Shown::Text(names.bytes_of(pv))])
}

// Writes a kind with two numbers.
fn write_numbers<W: Sink>(out: &mut W, kind: &str, first: u64, second: u64) -> Result<(), Failed>
    ensures { WritesText (W.written out.old) (W.fault_count out.old) (shown_text (kind.now, number first ∷ number second ∷ []))
        (is_ok result) (W.written out.new) (W.fault_count out.new) }
{
    write_kind(out, kind, &[Shown::Number(first), Shown::Number(second)])
}
