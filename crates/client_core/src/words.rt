//! The words of `do`.

ghost use Rattle.std.specs.Prelude.{◌≡◌};
ghost use Rattle.client_core.specs.Words.{word_of, has_no_name};

/// What a record asks for.
#[derive(Clone, Copy, Debug, PartialEq, Eq, Drop)]
pub(crate) enum Word {
    Bind,
    Search,
    Compare,
    Add,
    Modify,
    Rename,
    Delete,
    WhoAmI,
    Unbind,
}

impl Word {
    /// The operation of a word of `do`.
    #[tactic(auto, unfolding(crate::specs::Words::word_of))]
    pub(crate) fn of(text: &[u8]) -> Option<Word>
        ensures exact { result ≡ word_of text.now }
    {
        if text == b"bind".as_slice() {
            Some(Word::Bind)
        } else if text == b"search".as_slice() {
            Some(Word::Search)
        } else if text == b"compare".as_slice() {
            Some(Word::Compare)
        } else if text == b"add".as_slice() {
            Some(Word::Add)
        } else if text == b"modify".as_slice() {
            Some(Word::Modify)
        } else if text == b"rename".as_slice() {
            Some(Word::Rename)
        } else if text == b"delete".as_slice() {
            Some(Word::Delete)
        } else if text == b"whoami".as_slice() {
            Some(Word::WhoAmI)
        } else if text == b"unbind".as_slice() {
            Some(Word::Unbind)
        } else {
            None
        }
    }

    /// Whether the operation is on the session, and has no target.
    pub(crate) fn has_no_name(self) -> bool
        ensures exact { result ≡ has_no_name self }
    {
        match self {
            Word::WhoAmI | Word::Unbind => true,
            Word::Bind
            | Word::Search
            | Word::Compare
            | Word::Add
            | Word::Modify
            | Word::Rename
            | Word::Delete => false,
        }
    }
}
