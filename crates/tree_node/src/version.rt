ghost use Rattle.std.specs.Prelude.{◌≡◌, ◌*◌};
ghost use Rattle.tree_node.specs.TreeVersions.{levels as levels_of, bits as bits_of, inner_tag as tag_of_inner, segment_tag as tag_of_segment};

/// The version of a hash tree: how many levels of inner nodes stand above its segments, and with which
/// byte its nodes begin. An inner node has sixteen children in each version.
#[derive(Clone, Copy, Debug, PartialEq, Eq, PartialOrd, Ord, Hash)]
pub enum TreeVersion {
    /// Three levels of inner nodes above 4,096 segments; nodes begin with 1 and 2.
    One,
    /// Five levels of inner nodes above 1,048,576 segments; nodes begin with 3 and 4.
    Two,
}

impl TreeVersion {
    /// How many levels of inner nodes the tree has, which is the level of its segments.
    pub fn levels(self) -> u8
        ensures { result ≡ levels_of self }
    {
        match self {
            TreeVersion::One => 3,
            TreeVersion::Two => 5,
        }
    }

    /// How many bits of the digest of a key lead to its segment: four for each level of inner nodes.
    pub fn bits(self) -> u32
        ensures value { result ≡ bits_of self }
        ensures each_level { result ≡ 4 * levels_of self }
    {
        match self {
            TreeVersion::One => 12,
            TreeVersion::Two => 20,
        }
    }

    /// The first byte of an inner node.
    pub fn inner_tag(self) -> u8
        ensures { result ≡ tag_of_inner self }
    {
        match self {
            TreeVersion::One => 1,
            TreeVersion::Two => 3,
        }
    }

    /// The first byte of a segment.
    pub fn segment_tag(self) -> u8
        ensures { result ≡ tag_of_segment self }
    {
        match self {
            TreeVersion::One => 2,
            TreeVersion::Two => 4,
        }
    }
}
