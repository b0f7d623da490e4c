ghost use Rattle.std.specs.Prelude.{◌≡◌, ◌+◌, ◌++◌, ◌∷◌, [], ℕ, List, Some, drop, length, if◌then◌else◌, slice_get};
ghost use Rattle.std.specs.Option.{option_map};
ghost use Rattle.ens_base.specs.Lists.{same_bytes};
ghost use Rattle.network.specs.Indexes.{is_spelled, waiting_numbers};
ghost use Rattle.network.specs.Mail.{IsMail, Mail, no_mail, oldest, posted, settled};
ghost use Rattle.wire_frames.specs.Frames.{frame_spelling};
ghost use Rattle.wire_frames.specs.declared.frame.Frame.{Frame};

/// The numbers of the messages that wait with some bytes, as messages are sent and received. The first of
/// them is that of the oldest such message. A message that is sent comes behind them, if it is spelled so;
/// and if the oldest message with some bytes no longer waits, the numbers of these bytes lose their first.
pub fn an_index_follows_the_mail()
    ensures none { (bytes : List ℕ) → waiting_numbers bytes no_mail ≡ [] }
    ensures first { (bytes : List ℕ) (m : Mail) → slice_get (waiting_numbers bytes m) 0 ≡ option_map (λ n. n + 1) (oldest (is_spelled bytes) m) }
    ensures posted { (bytes : List ℕ) (m : Mail) (f : Frame) → IsMail m
        → waiting_numbers bytes (posted m f)
        ≡ (if same_bytes (frame_spelling f) bytes then waiting_numbers bytes m ++ (length m.sent + 1) ∷ []
        else waiting_numbers bytes m) }
    ensures settled { (bytes other : List ℕ) (m : Mail) (n : ℕ) → oldest (is_spelled bytes) m ≡ Some n
        → waiting_numbers other (settled m n)
        ≡ (if same_bytes bytes other then drop 1 (waiting_numbers other m) else waiting_numbers other m) }
{}
