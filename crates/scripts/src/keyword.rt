ghost use Rattle.std.specs.Prelude.{◌≡◌};
ghost use Rattle.scripts.specs.Keywords.{keyword_of, keyword_word};

/// The first word of a line behind the heading.
#[derive(Clone, Copy, Debug, PartialEq, Eq)]
pub(crate) enum Keyword {
    At,
    Open,
    Look,
    Route,
}

impl Keyword {
    const ALL: [Keyword; 4] = [Keyword::At, Keyword::Open, Keyword::Look, Keyword::Route];

    /// The keyword that the word is.
    pub(crate) fn from_word(word: &[u8]) -> Option<Keyword>
        ensures { result ≡ keyword_of word.now }
    {
        Keyword::ALL
            .iter()
            .copied()
            .find(|keyword| keyword.word().as_bytes() == word)
    }

    // The word.
    fn word(self) -> &'static str
        ensures { result.now ≡ keyword_word self }
    {
        match self {
            Keyword::At => "at",
            Keyword::Open => "open",
            Keyword::Look => "look",
            Keyword::Route => "route",
        }
    }
}
