//! Putting a text into sectors.
ghost use Rattle.std.specs.Prelude.{◌≡◌, ℕ, ◌+◌, ◌*◌, ◌≤◌, List, [], ◌∷◌, ◌++◌, length, IfOk};
ghost use Rattle.mda_ring.specs.declared.area.Area.{Area};
ghost use Rattle.mda_ring.specs.Areas.{IsArea};
ghost use Rattle.mda_ring.specs.NextPlace.{IsInRing};
ghost use Rattle.mda_ring.specs.Ring.{need};
ghost use Rattle.mda_ring.specs.Texts.{AreRead, text_sectors, text_at, text_sector};

use crate::Place;
use sector_base::{Bytes512, Sectors, Text};
use std::alloc::{AllocError, Global};

/// The sectors of a text for this place: the text and then zeros, as many sectors as the place has. Only memory can be
/// wanting.
pub fn scatter(alloc: Global, text: &Text, place: Place) -> Result<Sectors, AllocError>
    ensures sectors { IfOk result (λ sectors. sectors ≡ text_sectors text.now place.sectors) }
    // Where the place is that of a text whose stored size is the text's length and one byte more, and an area has the
    // sectors there in its ring, the text with its zero byte stands there.
    ensures stands { (area : Area) (sector_at : ℕ → List ℕ) → IsArea area → IsInRing area.size place
        → place.sectors ≡ need (length text.now + 1)
        → IfOk result (λ sectors. AreRead sector_at area.size place.offset sectors
        → text_at sector_at area.size place.offset (length text.now + 1) ≡ text.now ++ 0 ∷ []) }
{
    let bytes = text.as_bytes();
    let count = place.sectors as usize;
    let mut list = Vec::with_capacity(alloc, count)?;
    for k in 0..count {
        list.push(sector_of(bytes, k))?;
    }
    Ok(Sectors::from_vec(list))
}

// The bytes of sector number `k`, with zeros behind the last.
fn sector_of(bytes: &[u8], k: usize) -> Bytes512
    ensures { result ≡ text_sector bytes.now k }
{
    let start = k.saturating_mul(512).min(bytes.len());
    let rest = &bytes[start..];
    let mut sector = Bytes512::zeroed();
    sector.put(0, &rest[..rest.len().min(512)]);
    sector
}
