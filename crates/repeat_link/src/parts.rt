ghost use Rattle.std.specs.Prelude.{◌≡◌, ◌<◌, length};
ghost use Rattle.repeat_link.specs.Parts.{part_count, part_at};

/// The most bytes of a frame in one datagram. With the headers that stand before them they fit the 1,500
/// bytes of an Ethernet frame.
pub const PART: usize = 1_400;

/// The most parts of a frame.
pub const MOST_PARTS: usize = 64;

/// Returns how many parts a frame goes in: one, if it has at most 1,400 bytes.
pub fn part_count(frame: &[u8]) -> usize
    ensures { result ≡ part_count frame.now }
{
    frame.len().div_ceil(PART).max(1)
}

/// Returns the part of this place, the first being 0.
pub fn part_at(frame: &[u8], place: usize) -> &[u8]
    requires { place < part_count frame.now }
    ensures { result.now ≡ part_at place frame.now }
{
    let start = place * PART;
    let rest = &frame[start..];
    &rest[..rest.len().min(PART)]
}
