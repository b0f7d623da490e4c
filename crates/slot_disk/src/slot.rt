ghost use Rattle.std.specs.Prelude.{◌≡◌};
ghost use Rattle.slot_disk.specs.Slots.{start as place_of, other as other_one};

/// One of the two slots of a slot file.
#[derive(Clone, Copy, Debug, PartialEq, Eq)]
pub enum Slot {
    /// The slot that begins at byte 0.
    A,
    /// The slot that begins at byte 512.
    B,
}

impl Slot {
    /// Returns the offset of its first byte.
    pub fn start(self) -> u64
        ensures { result ≡ place_of self }
    {
        match self {
            Slot::A => 0,
            Slot::B => 512,
        }
    }

    /// Returns the other slot.
    pub fn other(self) -> Slot
        ensures { result ≡ other_one self }
    {
        match self {
            Slot::A => Slot::B,
            Slot::B => Slot::A,
        }
    }
}
