//! All that a commit writes, area by area.
ghost use Rattle.std.specs.Prelude.{◌≡◌, ◌≤◌, ◌<◌, ◌+◌, ◌^◌, [], ◌∷◌, length, All, IfOk, MatchResult};
ghost use Rattle.sector_base.specs.Checksum.{checksum, lvm_crc_start};
ghost use Rattle.mda_header.specs.HeaderBytes.{IsNoneOrInside};
ghost use Rattle.mda_ring.specs.Areas.{CanTake, IsArea};
ghost use Rattle.mda_ring.specs.NextPlace.{IsInRing, IsNext};
ghost use Rattle.mda_ring.specs.Ring.{need};
ghost use Rattle.mda_ring.specs.Texts.{text_sectors};
ghost use Rattle.vg_commit.specs.Written.{stored};
ghost use Rattle.vg_commit.specs.TooLarge.{IsCause};
ghost use Rattle.vg_commit.specs.Plans.{Adds, IsPlan};
ghost use Rattle.vg_commit.specs.TooLarge.{IsTooLargeFor};
ghost use Rattle.vg_commit.specs.declared.refusal.CommitRefusal.TheVariants.{NoMemory};

use crate::CommitRefusal;
use crate::puts::{put_header, put_text};
use mda_header::Locn;
use mda_ring::{Area, Place, RingRefusal, plan_next, scatter};
use sector_base::{LVM_CRC_START, Sectors, Span, Text, crc};
use std::alloc::Global;

// What the three batches write, and the areas with their new entries, so far: the sectors of the text, where they go, each
// span with the number of the sector from which it goes on, and the headers.
#[derive(Drop)]
pub(crate) struct Plan {
    pub(crate) text: Sectors,
    pub(crate) texts: Vec<(Span, usize)>,
    pub(crate) headers: Vec<(Span, Sectors)>,
    pub(crate) publish: Vec<(Span, Sectors)>,
    pub(crate) areas: Vec<(Area, Option<Locn>)>,
}

// What the commit of this text to these areas writes.
#[tactic(auto, using(crate::proofs::Planning::plan_none, crate::proofs::Planning::plan_all))]
pub(crate) fn plan_of(
    alloc: Global,
    areas: &[(Area, Option<Locn>)],
    text: &Text,
) -> Result<Plan, CommitRefusal>
    requires { All CanTake areas.now }
    ensures { MatchResult result (IsPlan text.now areas.now) (IsCause text.now areas.now) }
{
    let sum = stored_sum(alloc, text)?;
    let mut plan = Plan {
        text: stored_sectors(alloc, text)?,
        texts: Vec::new(alloc),
        headers: Vec::new(alloc),
        publish: Vec::new(alloc),
        areas: Vec::new(alloc),
    };
    for (area, committed) in areas {
        add_area(alloc, area, *committed, text, sum, &mut plan)?;
    }
    Ok(plan)
}

// Adds what is written to this area.
fn add_area(
    alloc: Global,
    area: &Area,
    committed: Option<Locn>,
    text: &Text,
    sum: u32,
    plan: &mut Plan,
) -> Result<(), CommitRefusal>
    requires area { IsArea area.now }
    requires committed { IsNoneOrInside area.now.size committed }
    requires size { length text.now < 2 ^ 40 }
    requires sum { sum ≡ checksum lvm_crc_start (stored text.now) }
    ensures { MatchResult result (λ _. Adds text.now (area.now, committed) plan.old plan.new) (IsCause text.now ((area.now, committed) ∷ [])) }
{
    let size = text.as_bytes().len() as u64 + 1;
    let place = place_of(area, committed, size)?;
    let entry = Locn {
        offset: place.offset,
        size,
        sum,
    };
    put_text(area, place, size, &mut plan.texts)?;
    put_header(alloc, area, committed, Some(entry), &mut plan.headers)?;
    put_header(alloc, area, Some(entry), None, &mut plan.publish)?;
    plan.areas.push((*area, Some(entry)))?;
    Ok(())
}

// Where a text of this stored size goes in the area.
fn place_of(area: &Area, committed: Option<Locn>, size: u64) -> Result<Place, CommitRefusal>
    requires area { IsArea area.now }
    requires committed { IsNoneOrInside area.now.size committed }
    requires size { 1 ≤ size }
    ensures placed { MatchResult result (IsNext area.now.size committed size) (IsTooLargeFor area.now.size committed size) }
    ensures in_ring { IfOk result (IsInRing area.now.size) }
{
    match plan_next(area, committed, size) {
        Ok(place) => Ok(place),
        Err(RingRefusal::TooLarge { need, room }) => Err(CommitRefusal::TooLarge { need, room }),
        Err(_) => Err(CommitRefusal::NoMemory),
    }
}

// The sectors of the text as it is stored.
fn stored_sectors(alloc: Global, text: &Text) -> Result<Sectors, CommitRefusal>
    requires size { length text.now < 2 ^ 40 }
    ensures sectors { IfOk result (λ sectors. sectors ≡ text_sectors text.now (need (length text.now + 1))) }
    ensures cause { MatchResult result (λ _. Unit {0}) (λ refusal. refusal ≡ NoMemory) }
{
    let place = Place {
        offset: 512,
        sectors: (text.as_bytes().len() as u64 + 1).div_ceil(512),
    };
    Ok(scatter(alloc, text, place)?)
}

// The checksum of the text as it is stored. A text of 2^40 bytes or more is want of memory.
fn stored_sum(alloc: Global, text: &Text) -> Result<u32, CommitRefusal>
    ensures sum { IfOk result (λ sum. sum ≡ checksum lvm_crc_start (stored text.now)) }
    ensures size { IfOk result (λ _. length text.now < 2 ^ 40) }
    ensures cause { MatchResult result (λ _. Unit {0}) (λ refusal. refusal ≡ NoMemory) }
{
    let bytes = text.as_bytes();
    if bytes.len() >= 1 << 40 {
        return Err(CommitRefusal::NoMemory);
    }
    let mut all = Vec::with_capacity(alloc, bytes.len() + 1)?;
    all.extend_from_slice(bytes)?;
    all.push(0)?;
    Ok(crc(LVM_CRC_START, &all))
}
