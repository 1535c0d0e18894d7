ghost use Rattle.std.specs.Prelude.{◌≡◌};
ghost use Rattle.scenario_mnemonics.specs.MnemonicWords.{verb_word, keyword_word, keyword_named};

use scenario_words::is_name;

/// What a request asks for, as its keyword says it.
#[derive(Clone, Copy)]
pub enum Verb {
    /// `read`
    Read,
    /// `observe`
    Observe,
    /// `cancel`
    Cancel,
    /// `discover`
    Discover,
    /// `delete`
    Delete,
    /// `write`
    Write,
    /// `update`
    Update,
    /// `create`
    Create,
    /// `attr`
    Attr,
    /// `exec`
    Exec,
}

/// The first word of a mnemonic.
#[derive(Clone, Copy)]
pub enum Keyword {
    /// Of a request.
    Request(Verb),
    /// `reset`
    Reset,
}

impl Verb {
    /// The word.
    pub fn word(self) -> &'static str
        ensures { result.now ≡ verb_word self }
    {
        match self {
            Verb::Read => "read",
            Verb::Observe => "observe",
            Verb::Cancel => "cancel",
            Verb::Discover => "discover",
            Verb::Delete => "delete",
            Verb::Write => "write",
            Verb::Update => "update",
            Verb::Create => "create",
            Verb::Attr => "attr",
            Verb::Exec => "exec",
        }
    }
}

impl Keyword {
    /// The word.
    pub fn word(self) -> &'static str
        ensures { result.now ≡ keyword_word self }
    {
        match self {
            Keyword::Request(verb) => verb.word(),
            Keyword::Reset => "reset",
        }
    }

    /// The keyword that a word is, if it is one.
    pub fn named(word: &[u8]) -> Option<Keyword>
        ensures { result ≡ keyword_named word.now }
    {
        if is_name(word, "reset") {
            Some(Keyword::Reset)
        } else if is_name(word, "read") {
            Some(Keyword::Request(Verb::Read))
        } else if is_name(word, "observe") {
            Some(Keyword::Request(Verb::Observe))
        } else if is_name(word, "cancel") {
            Some(Keyword::Request(Verb::Cancel))
        } else if is_name(word, "discover") {
            Some(Keyword::Request(Verb::Discover))
        } else if is_name(word, "delete") {
            Some(Keyword::Request(Verb::Delete))
        } else if is_name(word, "write") {
            Some(Keyword::Request(Verb::Write))
        } else if is_name(word, "update") {
            Some(Keyword::Request(Verb::Update))
        } else if is_name(word, "create") {
            Some(Keyword::Request(Verb::Create))
        } else if is_name(word, "attr") {
            Some(Keyword::Request(Verb::Attr))
        } else if is_name(word, "exec") {
            Some(Keyword::Request(Verb::Exec))
        } else {
            None
        }
    }
}
