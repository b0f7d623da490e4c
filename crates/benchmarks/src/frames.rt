//! Decodes a million beats and a million calls.

ghost use Rattle.std.specs.Prelude.{◌≤◌};

use std::alloc::Global;
use wire_frames::decode_frame;

/// The beat of epoch 1.1 from peer 1 to peer 2.
const BEAT: [u8; 26] = [
    0x52, 0x45, 2, 0x11, 0, 0, 0, 1, 0, 0, 0, 2, 0, 12, 0, 0, 0, 0, 0, 0, 0, 1, 0, 0, 0, 1,
];

/// A call of number 7 from program 32 to peer 1, which writes `v` under `k`.
const CALL: [u8; 28] = [
    0x52, 0x45, 2, 0x12, 0, 0, 0, 32, 0, 0, 0, 1, 0, 14, 0, 0, 0, 0, 0, 0, 0, 7, 7, 1, 0x6b, 0, 1,
    0x76,
];

/// Decodes the bytes `times` times, and returns how often they were a frame.
fn decoded(alloc: Global, bytes: &[u8], times: u32) -> u32
    ensures { result ≤ times }
{
    let mut frames = 0;
    for _ in 0..times {
        match decode_frame(alloc, bytes) {
            Ok(_frame) => frames += 1,
            Err(_) => {}
        }
    }
    frames
}

/// Returns how many of a million beats and of a million calls were decoded.
pub fn measure(alloc: Global) -> (u32, u32) {
    (
        decoded(alloc, &BEAT, 1_000_000),
        decoded(alloc, &CALL, 1_000_000),
    )
}
