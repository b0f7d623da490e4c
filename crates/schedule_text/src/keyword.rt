ghost use Rattle.std.specs.Prelude.{◌≡◌};
ghost use Rattle.schedule_text.specs.Keywords.{keyword_word, keyword_of, command_word, command_of, operand_count, store_word, store_of, survivor_word, survivor_of};

/// The first word of an event line.
#[derive(Clone, Copy, Debug, PartialEq, Eq)]
pub(crate) enum Keyword {
    Call,
    Tick,
    Deliver,
    Pass,
    Lose,
    Calm,
    Change,
    Stop,
    Start,
    Upgrade,
    Deepen,
    Spoil,
    Damage,
    Inner,
    Revert,
    Fail,
}

/// The word that names the command of a call.
#[derive(Clone, Copy, Debug, PartialEq, Eq)]
pub(crate) enum CommandName {
    Get,
    Once,
    Update,
    Append,
    Add,
    Swap,
    Over,
    Delete,
}

/// A store of a peer, of which a write is to fail.
#[derive(Clone, Copy, Debug, PartialEq, Eq)]
pub enum StoreName {
    /// The store of the fact.
    Fact,
    /// The top record of the tree.
    Tree,
    /// The store of the objects.
    Backend,
}

/// What a failed write leaves in the store.
#[derive(Clone, Copy, Debug, PartialEq, Eq)]
pub enum Survivor {
    /// What was there before the write.
    Old,
    /// What the write wrote.
    New,
}

impl Keyword {
    const ALL: [Keyword; 16] = [
        Keyword::Call,
        Keyword::Tick,
        Keyword::Deliver,
        Keyword::Pass,
        Keyword::Lose,
        Keyword::Calm,
        Keyword::Change,
        Keyword::Stop,
        Keyword::Start,
        Keyword::Upgrade,
        Keyword::Deepen,
        Keyword::Spoil,
        Keyword::Damage,
        Keyword::Inner,
        Keyword::Revert,
        Keyword::Fail,
    ];

    /// The keyword that the word is.
    pub(crate) fn from_word(word: &[u8]) -> Option<Keyword>
        ensures { result ≡ keyword_of word.now }
    {
        Keyword::ALL
            .iter()
            .copied()
            .find(|keyword| keyword.word().as_bytes() == word)
    }

    /// The word.
    pub(crate) fn word(self) -> &'static str
        ensures { result.now ≡ keyword_word self }
    {
        match self {
            Keyword::Call => "call",
            Keyword::Tick => "tick",
            Keyword::Deliver => "deliver",
            Keyword::Pass => "pass",
            Keyword::Lose => "lose",
            Keyword::Calm => "calm",
            Keyword::Change => "change",
            Keyword::Stop => "stop",
            Keyword::Start => "start",
            Keyword::Upgrade => "upgrade",
            Keyword::Deepen => "deepen",
            Keyword::Spoil => "spoil",
            Keyword::Damage => "damage",
            Keyword::Inner => "inner",
            Keyword::Revert => "revert",
            Keyword::Fail => "fail",
        }
    }
}

impl CommandName {
    const ALL: [CommandName; 8] = [
        CommandName::Get,
        CommandName::Once,
        CommandName::Update,
        CommandName::Append,
        CommandName::Add,
        CommandName::Swap,
        CommandName::Over,
        CommandName::Delete,
    ];

    /// The command that the word names.
    pub(crate) fn from_word(word: &[u8]) -> Option<CommandName>
        ensures { result ≡ command_of word.now }
    {
        CommandName::ALL
            .iter()
            .copied()
            .find(|name| name.word().as_bytes() == word)
    }

    /// The word.
    pub(crate) fn word(self) -> &'static str
        ensures { result.now ≡ command_word self }
    {
        match self {
            CommandName::Get => "get",
            CommandName::Once => "once",
            CommandName::Update => "update",
            CommandName::Append => "append",
            CommandName::Add => "add",
            CommandName::Swap => "swap",
            CommandName::Over => "over",
            CommandName::Delete => "delete",
        }
    }

    /// How many words follow the key.
    pub(crate) fn operand_count(self) -> usize
        ensures { result ≡ operand_count self }
    {
        match self {
            CommandName::Get | CommandName::Delete => 0,
            CommandName::Once | CommandName::Append | CommandName::Add | CommandName::Over => 1,
            CommandName::Update | CommandName::Swap => 2,
        }
    }
}

impl StoreName {
    const ALL: [StoreName; 3] = [StoreName::Fact, StoreName::Tree, StoreName::Backend];

    /// The store that the word names.
    pub(crate) fn from_word(word: &[u8]) -> Option<StoreName>
        ensures { result ≡ store_of word.now }
    {
        StoreName::ALL
            .iter()
            .copied()
            .find(|store| store.word().as_bytes() == word)
    }

    /// The word.
    pub(crate) fn word(self) -> &'static str
        ensures { result.now ≡ store_word self }
    {
        match self {
            StoreName::Fact => "fact",
            StoreName::Tree => "tree",
            StoreName::Backend => "backend",
        }
    }
}

impl Survivor {
    const ALL: [Survivor; 2] = [Survivor::Old, Survivor::New];

    /// What the word says.
    pub(crate) fn from_word(word: &[u8]) -> Option<Survivor>
        ensures { result ≡ survivor_of word.now }
    {
        Survivor::ALL
            .iter()
            .copied()
            .find(|survivor| survivor.word().as_bytes() == word)
    }

    /// The word.
    pub(crate) fn word(self) -> &'static str
        ensures { result.now ≡ survivor_word self }
    {
        match self {
            Survivor::Old => "old",
            Survivor::New => "new",
        }
    }
}
