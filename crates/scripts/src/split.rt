ghost use Rattle.std.specs.Prelude.{◌≡◌, ◌==◌, ◌+◌, ◌∷◌, [], ℕ, List, length, position, MatchOption};
ghost use Rattle.lexemes.specs.Words.{parts_of, words_of};

// Where the byte stands first.
fn find(text: &[u8], at: u8) -> Option<usize>
    ensures { result ≡ position (λ b. b == at) text.now }
{
    text.iter().position(|b| *b == at)
}

/// Splits a text at the first byte `at`, if there is one.
pub(crate) fn split(text: &[u8], at: u8) -> Option<(&[u8], &[u8])>
    ensures parts { MatchOption result (parts_of at text.now ≡ text.now ∷ []) (λ x. parts_of at text.now ≡ x.0.now ∷ parts_of at x.1.now) }
    ensures lengths { MatchOption result (Unit {0}) (λ x. length text.now ≡ length x.0.now + 1 + length x.1.now) }
{
    match find(text, at) {
        Some(k) => Some((&text[..k], &text[k + 1..])),
        None => None,
    }
}

/// The first word of a line.
pub(crate) fn first_word(line: &[u8]) -> &[u8]
    ensures { (more : List (List ℕ)) × (words_of line.now ≡ result.now ∷ more) }
{
    match split(line, b' ') {
        Some((word, _)) => word,
        None => line,
    }
}
