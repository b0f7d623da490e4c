ghost use Rattle.std.specs.Prelude.{◌≡◌, ◌++◌, ℕ, List};
ghost use Rattle.wire_frames.specs.declared.frame.Frame.{Frame};
ghost use Rattle.wire_frames.specs.Frames.{IsFrame, frame_spelling};

/// Proves that no frame's spelling begins another's: frames that follow one another come apart in one way.
pub fn frames_stand_apart()
    ensures { (x y : Frame) (a b : List ℕ) → IsFrame x → IsFrame y → frame_spelling x ++ a ≡ frame_spelling y ++ b → (x ≡ y) × (a ≡ b) }
{}
