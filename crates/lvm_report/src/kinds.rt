//! The kinds of volumes.
ghost use Rattle.std.specs.Prelude.{◌≡◌};
ghost use Rattle.lvm_report.specs.Volumes.{first_kind, segment_kind};

use meta_model::{SegKind, Segment};

/// The kind of a volume by its first segment.
pub fn first_kind(segments: &[Segment]) -> &'static str
    ensures { result.now ≡ first_kind segments.now }
{
    match segments.first() {
        Some(segment) => segment_kind(&segment.kind),
        None => "linear",
    }
}

// The kind of a segment.
fn segment_kind(kind: &SegKind) -> &'static str
    ensures { result.now ≡ segment_kind kind.now }
{
    match kind {
        SegKind::Striped { legs, .. } if legs.len() > 1 => "stripe",
        SegKind::Striped { .. } => "linear",
        SegKind::Mirror { .. } => "mirror",
    }
}
