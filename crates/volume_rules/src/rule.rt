//! The rules that a volume group keeps.
ghost use Rattle.std.specs.Prelude.{◌≡◌};
ghost use Rattle.volume_rules.specs.Rules.{number_of};

/// What a rule is about. A group that breaks one is never used.
#[derive(Clone, Copy, Debug, PartialEq, Eq)]
pub enum Rule {
    /// Each number lies within its limits.
    Numbers,
    /// No id stands twice.
    Ids,
    /// There aren't too many volumes.
    Volumes,
    /// There aren't too many segments, and each logical volume has one.
    Segments,
    /// The extents of a physical volume lie on its device.
    Extents,
    /// The segments of a volume follow each other.
    Follows,
    /// Stripes divide what they are spread over.
    Stripes,
    /// A mirror has copies, and regions of a size.
    Mirrors,
    /// Legs lie within the volumes that they name.
    Within,
    /// No extent lies in two legs.
    Apart,
    /// Volumes don't lie on each other too deep, and those below are hidden.
    Depth,
    /// Only a move says how much was moved.
    Moved,
    /// There is one move at most, and it is one from one physical volume.
    Pvmove,
    /// A locked volume is moving.
    Locked,
}

impl Rule {
    /// The number of the rule, from 1, in the order in which they are examined.
    pub fn number(self) -> u32
        ensures { result ≡ number_of self }
    {
        match self {
            Rule::Numbers => 1,
            Rule::Ids => 2,
            Rule::Volumes => 3,
            Rule::Segments => 4,
            Rule::Extents => 5,
            Rule::Follows => 6,
            Rule::Stripes => 7,
            Rule::Mirrors => 8,
            Rule::Within => 9,
            Rule::Apart => 10,
            Rule::Depth => 11,
            Rule::Moved => 12,
            Rule::Pvmove => 13,
            Rule::Locked => 14,
        }
    }
}
