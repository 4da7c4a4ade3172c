//! Why a metadata area has no copy of a group.
ghost use Rattle.std.specs.Prelude.{◌≡◌};
ghost use Rattle.scan_rules.specs.Copies.{kind_of};

use conf_text::ConfRefusal;
use mda_header::MdaRefusal;
use meta_model::GroupRefusal;
use volume_rules::Rule;

/// Why a metadata area has no copy of a group's metadata: the first of these that holds.
#[derive(Debug, Drop)]
pub enum CopyRefusal {
    /// Its first sector is no header of it.
    HeaderRefused(MdaRefusal),
    /// The header says this checksum of the committed text, and it has that one.
    SumDiffers(u32, u32),
    /// The text has no tree.
    TextRefused(ConfRefusal),
    /// The tree stands for no group.
    GroupRefused(GroupRefusal),
    /// The group breaks this rule first.
    RuleBroken(Rule),
}

impl CopyRefusal {
    /// Its name: that of the header's, the text's or the group's refusal, `SumDiffers` or `BadRule`.
    pub fn kind(&self) -> &'static str
        ensures { result.now ≡ kind_of self.now }
    {
        match self {
            CopyRefusal::HeaderRefused(refusal) => refusal.kind(),
            CopyRefusal::SumDiffers(_, _) => "SumDiffers",
            CopyRefusal::TextRefused(refusal) => refusal.kind(),
            CopyRefusal::GroupRefused(refusal) => refusal.kind(),
            CopyRefusal::RuleBroken(_) => "BadRule",
        }
    }
}
