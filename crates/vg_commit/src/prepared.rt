//! A commit that is ready to start.
ghost use Rattle.std.specs.Prelude.{◌≡◌, ◌^◌, ◌-◌, min};

use disk_batch::Batch;
use mda_ring::Areas;

/// A commit that is ready to start: from here on it takes no memory.
#[derive(Drop)]
pub struct Prepared {
    pub(crate) texts: Batch,
    pub(crate) headers: Batch,
    pub(crate) publish: Batch,
    pub(crate) areas: Areas,
}

impl Prepared {
    ghost use Rattle.vg_commit.specs.Preparing.{ops_needed, sectors_needed};

    /// How many operations and sectors of a shelf it uses up. A number past 2^64 - 1 is given as that.
    pub fn needs(&self) -> (u64, u64)
        ensures ops { result.0 ≡ min (ops_needed self.now) (2 ^ 64 - 1) }
        ensures sectors { result.1 ≡ min (sectors_needed self.now) (2 ^ 64 - 1) }
    {
        let texts = self.texts.needs();
        let headers = self.headers.needs();
        let publish = self.publish.needs();
        (
            texts.0.saturating_add(headers.0).saturating_add(publish.0),
            texts.1.saturating_add(headers.1).saturating_add(publish.1),
        )
    }

    /// Its three batches, which are carried out in this order, each lasting before the next begins: the texts, the headers
    /// with the old entries in force, and the headers that publish the new ones.
    pub fn into_batches(self) -> (Batch, Batch, Batch)
        ensures { (result.0 ≡ self.texts) × (result.1 ≡ self.headers) × (result.2 ≡ self.publish) }
    {
        let Prepared {
            texts,
            headers,
            publish,
            areas: _,
        } = self;
        (texts, headers, publish)
    }
}
