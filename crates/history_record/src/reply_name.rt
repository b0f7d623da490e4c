ghost use Rattle.std.specs.Prelude.{◌≡◌};
ghost use Rattle.history_record.specs.Lines.{operand_count, reply_name_of, reply_word};

/// The word that names a reply.
#[derive(Clone, Copy, Debug, PartialEq, Eq)]
pub(crate) enum ReplyName {
    Value,
    NotFound,
    Ok,
    Failed,
    Unavailable,
    Busy,
    Lost,
    Timeout,
}

impl ReplyName {
    const ALL: [ReplyName; 8] = [
        ReplyName::Value,
        ReplyName::NotFound,
        ReplyName::Ok,
        ReplyName::Failed,
        ReplyName::Unavailable,
        ReplyName::Busy,
        ReplyName::Lost,
        ReplyName::Timeout,
    ];

    /// The reply that the word names.
    pub(crate) fn from_word(word: &[u8]) -> Option<ReplyName>
        ensures { result ≡ reply_name_of word.now }
    {
        ReplyName::ALL
            .iter()
            .copied()
            .find(|name| name.word().as_bytes() == word)
    }

    /// The word.
    pub(crate) fn word(self) -> &'static str
        ensures { result.now ≡ reply_word self }
    {
        match self {
            ReplyName::Value => "value",
            ReplyName::NotFound => "notfound",
            ReplyName::Ok => "ok",
            ReplyName::Failed => "failed",
            ReplyName::Unavailable => "unavailable",
            ReplyName::Busy => "busy",
            ReplyName::Lost => "lost",
            ReplyName::Timeout => "timeout",
        }
    }

    /// How many words follow it.
    pub(crate) fn operand_count(self) -> usize
        ensures { result ≡ operand_count self }
    {
        match self {
            ReplyName::Value => 2,
            ReplyName::Ok => 1,
            ReplyName::NotFound
            | ReplyName::Failed
            | ReplyName::Unavailable
            | ReplyName::Busy
            | ReplyName::Lost
            | ReplyName::Timeout => 0,
        }
    }
}
