ghost use Rattle.std.specs.Prelude.{◌≡◌, ◌<◌, ◌^◌, ◌++◌, List, ℕ, take, drop, length, Some, slice_index_or};
ghost use Rattle.commit_frames.specs.Headers.{zeros_in, header_bytes, IsWhole, FitsHeader};
ghost use Rattle.commit_frames.specs.Frames.{Frame, frame_bytes, IsLostFrom};
ghost use Rattle.commit_frames.specs.Records.{record_bytes, shape_in};
ghost use Rattle.commit_frames.specs.declared.header.Header.{Header};
ghost use Rattle.commit_frames.specs.declared.record.RecordKind.{RecordKind};

/// Of bytes that were written over zeros, a crash left all if it left as many zeros as there are among
/// them. A frame that a header announces in what a crash left of one is that one, and whole.
pub fn a_torn_frame_is_refused()
    ensures zeros { (whole left : List ℕ) → IsLostFrom whole left → zeros_in left ≡ zeros_in whole → left ≡ whole }
    ensures frame { (f : Frame) (left : List ℕ) (h : Header) → FitsHeader f.head → IsWhole f.head f.payload
        → IsLostFrom (frame_bytes f) left → FitsHeader h → take 44 left ≡ header_bytes h → IsWhole h (drop 44 left)
        → left ≡ frame_bytes f }
{}

/// Of a header of which one byte was changed, nothing else can be read, whole or torn, than the length and the
/// zeros that it said. So a frame before another one still ends where that one begins.
pub fn a_changed_byte_is_told()
    ensures { (h g : Header) (bytes : List ℕ) (place : ℕ) → FitsHeader h → FitsHeader g
        → ((i : ℕ) → (i ≡ place → ⊥) → slice_index_or bytes i 0 ≡ slice_index_or (header_bytes h) i 0)
        → IsLostFrom (header_bytes g) bytes → (g.length ≡ h.length) × (g.zeros ≡ h.zeros) }
{}

/// A record whose content is shorter than 2^32 bytes is read back, whatever follows it.
pub fn a_record_is_read_back()
    ensures { (kind : RecordKind) (name content rest : List ℕ) → length content < 2 ^ 32
        → shape_in (record_bytes kind name content ++ rest)
        ≡ Some (record { kind = kind; name = length name; content = length content }) }
{}
