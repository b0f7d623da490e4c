ghost use Rattle.std.specs.Prelude.{◌≡◌, ◌+◌, ◌≤◌, ℕ, Bool, true, false, None, Some, length};
ghost use Rattle.wire_frames.specs.declared.frame.Frame.{Frame};
ghost use Rattle.network.specs.Mail.{Mail, posted, settled, lost, goes, oldest, is_waiting, IsClear, IsMail};

/// The oldest message waits and passes the test, and no message before it does. If there is no
/// oldest message, none waits and passes the test.
pub fn the_oldest_comes_first()
    ensures waits { (test : Frame → Bool) (m : Mail) (n : ℕ) → oldest test m ≡ Some n → is_waiting test m n ≡ true }
    ensures first { (test : Frame → Bool) (m : Mail) (n : ℕ) → oldest test m ≡ Some n → IsClear test n m }
    ensures none { (test : Frame → Bool) (m : Mail) (k : ℕ) → oldest test m ≡ None → IsClear test k m }
{}

/// Once the oldest message is settled, no message up to it waits and passes the test, whatever is
/// sent, settled or lost afterwards. So each oldest message for one test is younger than the one
/// before.
pub fn the_oldest_grows_younger()
    ensures oldest { (test : Frame → Bool) (m : Mail) (n : ℕ) → oldest test m ≡ Some n → IsClear test (n + 1) (settled m n) }
    ensures posted { (test : Frame → Bool) (m : Mail) (k : ℕ) (f : Frame) → IsMail m → k ≤ length m.sent → IsClear test k m → IsClear test k (posted m f) }
    ensures settled { (test : Frame → Bool) (m : Mail) (k n : ℕ) → IsClear test k m → IsClear test k (settled m n) }
    ensures lost { (test : Frame → Bool) (m : Mail) (k from to : ℕ) → IsClear test k m → IsClear test k (lost from to m) }
    ensures beyond { (test : Frame → Bool) (m : Mail) (k n : ℕ) → IsClear test k m → oldest test m ≡ Some n → k ≤ n }
{}

/// After a loss no message waits in the lost direction, and every other message waits as before.
pub fn the_lost_are_gone()
    ensures gone { (m : Mail) (from to : ℕ) → oldest (goes from to) (lost from to m) ≡ None }
    ensures others { (test : Frame → Bool) (m : Mail) (from to n : ℕ) → ((f : Frame) → test f ≡ true → goes from to f ≡ false) → is_waiting test (lost from to m) n ≡ is_waiting test m n }
{}
