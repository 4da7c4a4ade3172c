//! What a line answers.
ghost use Rattle.std.specs.Prelude.{◌++◌, codes, decimal, flat_map, is_ok};
ghost use Rattle.sector_base.specs.Shown.{shown_text};
ghost use Rattle.byte_streams.specs.Streams.{WritesText};
ghost use Rattle.line_answers.specs.Answers.{answer_text, shown_op, token};

use crate::token::write_token;
use crate::{DiskNames, OpRefusal};
use byte_streams::{Failed, Sink, write_all, write_bytes, write_number};
use sector_base::{Bytes512, ItemList, Sectors, Text};

/// Names of volumes with how many sectors they have.
pub type Lengths = ItemList<(Text, u64)>;

/// The answer of a line.
#[derive(Debug, Drop)]
pub enum Answer {
    /// It was done.
    Fine,
    /// The sectors that it read.
    Read(Sectors),
    /// The volumes, in the order of their names' bytes in the group.
    Listed(Lengths),
    Refused(OpRefusal),
    /// A read of the disk with this number failed, and no other leg could be read.
    ReadFailed(u32),
    /// A write or flush on the disk with this number failed.
    PvFailed(u32),
    /// The group is fenced by the disk with this number.
    Fenced(u32),
    /// The move stopped, since the disk with this number failed.
    Stopped(u32),
    /// A later line ended the move.
    Aborted,
    /// Memory was wanting.
    NoMemory,
}

impl Answer {
    /// Writes it as it is shown, where the disks have these names.
    ///
    /// # Errors
    ///
    /// As of `write_all`.
    pub fn write<W: Sink>(&self, out: &mut W, names: &DiskNames) -> Result<(), Failed>
        ensures { WritesText (W.written out.old) (W.fault_count out.old) (answer_text names.now self.now)
            (is_ok result) (W.written out.new) (W.fault_count out.new) }
    {
        match self {
            Answer::Fine => write_bytes(out, b"ok"),
            Answer::Read(sectors) => write_sectors(out, sectors.as_slice()),
            Answer::Listed(lengths) => write_lengths(out, lengths.as_slice()),
            Answer::Refused(refusal) => write_refused(out, refusal, names),
            Answer::ReadFailed(pv) => write_both(out, b"read failed ", names.bytes_of(*pv)),
            Answer::PvFailed(pv) => write_both(out, b"pv failed ", names.bytes_of(*pv)),
            Answer::Fenced(pv) => write_both(out, b"fenced ", names.bytes_of(*pv)),
            Answer::Stopped(pv) => write_both(out, b"stopped ", names.bytes_of(*pv)),
            Answer::Aborted => write_bytes(out, b"aborted"),
            Answer::NoMemory => write_bytes(out, b"no memory"),
        }
    }
}

// Writes the sectors that were read.
fn write_sectors<W: Sink>(out: &mut W, sectors: &[Bytes512]) -> Result<(), Failed>
    ensures { WritesText (W.written out.old) (W.fault_count out.old) (codes "data" ++ flat_map (λ sector. codes " " ++ token sector) sectors.now)
        (is_ok result) (W.written out.new) (W.fault_count out.new) }
{
    write_bytes(out, b"data")?;
    for sector in sectors {
        write_sector(out, sector)?;
    }
    Ok(())
}

// Writes a space and the sector.
fn write_sector<W: Sink>(out: &mut W, sector: &Bytes512) -> Result<(), Failed>
    ensures { WritesText (W.written out.old) (W.fault_count out.old) (codes " " ++ token sector.now)
        (is_ok result) (W.written out.new) (W.fault_count out.new) }
{
    write_bytes(out, b" ")?;
    write_token(out, sector)
}

// Writes the volumes.
fn write_lengths<W: Sink>(out: &mut W, lengths: &[(Text, u64)]) -> Result<(), Failed>
    ensures { WritesText (W.written out.old) (W.fault_count out.old) (codes "list" ++ flat_map (λ pair. codes " " ++ pair.0 ++ codes "=" ++ decimal pair.1) lengths.now)
        (is_ok result) (W.written out.new) (W.fault_count out.new) }
{
    write_bytes(out, b"list")?;
    for (name, sectors) in lengths {
        write_length(out, name, *sectors)?;
    }
    Ok(())
}

// Writes a space, and a volume's name with how many sectors it has.
fn write_length<W: Sink>(out: &mut W, name: &Text, sectors: u64) -> Result<(), Failed>
    ensures { WritesText (W.written out.old) (W.fault_count out.old) (codes " " ++ name.now ++ codes "=" ++ decimal sectors)
        (is_ok result) (W.written out.new) (W.fault_count out.new) }
{
    write_bytes(out, b" ")?;
    write_all(out, name)?;
    write_bytes(out, b"=")?;
    write_number(out, sectors)
}

// Writes a refusal.
fn write_refused<W: Sink>(out: &mut W, refusal: &OpRefusal, names: &DiskNames) -> Result<(), Failed>
    ensures { WritesText (W.written out.old) (W.fault_count out.old) (codes "refused " ++ shown_text (shown_op names.now refusal.now))
        (is_ok result) (W.written out.new) (W.fault_count out.new) }
{
    write_bytes(out, b"refused ")?;
    refusal.write(out, names)
}

// Writes one text after another.
fn write_both<W: Sink>(out: &mut W, first: &[u8], second: &[u8]) -> Result<(), Failed>
    ensures { WritesText (W.written out.old) (W.fault_count out.old) (first.now ++ second.now)
        (is_ok result) (W.written out.new) (W.fault_count out.new) }
{
    write_bytes(out, first)?;
    write_bytes(out, second)
}
