ghost use Rattle.std.specs.Prelude.{◌≡◌, ◌≤◌, ℕ, List};
ghost use Rattle.fields.specs.FirstFaults.{FaultsFirst};
ghost use Rattle.wire_frames.specs.Messages.{kind_of, IsMessage, message_spelling, message_at};
ghost use Rattle.wire_frames.specs.Frames.{frame_of};
ghost use Rattle.wire_frames.specs.FirstCauses.{first_cause, header_tests, body_of};

/// Proves that the fault of a frame is the first one. A header is tested in the order of its tests. The
/// fault of a body is at the first part that is cut short or breaks its rule: bytes that are cut before
/// the end of that part end too early, bytes that agree to its end have the same fault, and no message of
/// the kind is spelled so.
pub fn frames_fault_first()
    ensures header { (bytes : List ℕ) → frame_of bytes ≡ first_cause (header_tests bytes) (body_of bytes) }
    ensures body { (kind : ℕ) → (1 ≤ kind) × (kind ≤ 19) → FaultsFirst (λ m. (kind_of m ≡ kind) × IsMessage m) message_spelling (message_at kind) }
{}
