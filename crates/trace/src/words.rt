ghost use Rattle.std.specs.Prelude.{◌≡◌, map, string_bytes};
ghost use Rattle.trace.specs.Words.{names_of};

/// Returns whether the words of the program ask for names, or `None` if they ask for nothing. The
/// first one is the name of the program; after it comes none, or `names`.
pub fn names_asked(words: &[String]) -> Option<bool>
    ensures { result ≡ names_of (map string_bytes words.now) }
{
    match words {
        [] | [_] => Some(false),
        [_, word] if word.as_bytes() == b"names".as_slice() => Some(true),
        _ => None,
    }
}
