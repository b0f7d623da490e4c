ghost use Rattle.std.specs.Prelude.{◌≡◌};
ghost use Rattle.schedule_text.specs.Arguments.{has_empty, none_of, one_of, two_of, three_of, four_of, some_of, first_of};
ghost use Rattle.schedule_text.specs.Texts.{texts, one_text, two_texts, three_texts, four_texts, some_texts, first_texts};

use lexemes::Cause;

// Whether a word is empty.
pub(crate) fn has_empty(words: &[&[u8]]) -> bool
    ensures { result ≡ has_empty (texts words.now) }
{
    words.iter().any(|word| word.is_empty())
}

// The words, where there is none.
pub(crate) fn none(words: &[&[u8]]) -> Result<(), Cause>
    ensures { none_of (texts words.now) ≡ result }
{
    if words.is_empty() {
        Ok(())
    } else {
        Err(Cause::Words)
    }
}

// The word, where there is one.
pub(crate) fn one<'a>(words: &[&'a [u8]]) -> Result<&'a [u8], Cause>
    ensures { one_of (texts words.now) ≡ one_text result }
{
    match words {
        [a] if !has_empty(words) => Ok(a),
        _ => Err(Cause::Words),
    }
}

// The words, where there are two.
pub(crate) fn two<'a>(words: &[&'a [u8]]) -> Result<(&'a [u8], &'a [u8]), Cause>
    ensures { two_of (texts words.now) ≡ two_texts result }
{
    match words {
        [a, b] if !has_empty(words) => Ok((a, b)),
        _ => Err(Cause::Words),
    }
}

// The words, where there are three.
pub(crate) fn three<'a>(words: &[&'a [u8]]) -> Result<(&'a [u8], &'a [u8], &'a [u8]), Cause>
    ensures { three_of (texts words.now) ≡ three_texts result }
{
    match words {
        [a, b, c] if !has_empty(words) => Ok((a, b, c)),
        _ => Err(Cause::Words),
    }
}

// The words, where there are four.
pub(crate) fn four<'a>(
    words: &[&'a [u8]],
) -> Result<(&'a [u8], &'a [u8], &'a [u8], &'a [u8]), Cause>
    ensures { four_of (texts words.now) ≡ four_texts result }
{
    match words {
        [a, b, c, d] if !has_empty(words) => Ok((a, b, c, d)),
        _ => Err(Cause::Words),
    }
}

// The words, where there is one at least.
pub(crate) fn some<'a, 'b>(words: &'b [&'a [u8]]) -> Result<&'b [&'a [u8]], Cause>
    ensures { some_of (texts words.now) ≡ some_texts result }
{
    if words.is_empty() || has_empty(words) {
        return Err(Cause::Words);
    }
    Ok(words)
}

// The first word and the others, where there is one other at least.
pub(crate) fn first<'a, 'b>(words: &'b [&'a [u8]]) -> Result<(&'a [u8], &'b [&'a [u8]]), Cause>
    ensures { first_of (texts words.now) ≡ first_texts result }
{
    match words {
        [a, others @ ..] if !others.is_empty() && !has_empty(words) => Ok((a, others)),
        _ => Err(Cause::Words),
    }
}
