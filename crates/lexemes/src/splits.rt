ghost use Rattle.std.specs.Prelude.{◌≡◌, IfOk, map};
ghost use Rattle.lexemes.specs.Words.{parts_of, words_of};

use std::alloc::{AllocError, Global};

/// Splits a text at each byte `at`.
pub fn parts(alloc: Global, text: &[u8], at: u8) -> Result<Vec<&[u8]>, AllocError>
    ensures { IfOk result (λ v. map (λ part. part.now) v.items ≡ parts_of at text.now) }
{
    text.split(|b| *b == at).collect(alloc)
}

/// Splits a line into its words at each space. Two spaces that follow each other leave an empty word.
pub fn line_words(alloc: Global, line: &[u8]) -> Result<Vec<&[u8]>, AllocError>
    ensures { IfOk result (λ v. map (λ word. word.now) v.items ≡ words_of line.now) }
{
    parts(alloc, line, b' ')
}
