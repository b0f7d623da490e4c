ghost use Rattle.std.specs.Prelude.{◌≡◌, ◌↔◌, IsTrue};

/// Returns whether the bytes are the same. It looks at every byte of two strings of one length, so its
/// time does not tell where they differ.
pub fn is_same(left: &[u8], right: &[u8]) -> bool
    ensures { IsTrue result ↔ (left.now ≡ right.now) }
{
    if left.len() != right.len() {
        return false;
    }
    let mut same = 0usize;
    'bytes: for i in 0..left.len() {
        same += usize::from(left[i] == right[i]);
    }
    same == left.len()
}
