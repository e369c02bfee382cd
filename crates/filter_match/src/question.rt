//! What is asked of a filter, or of a part of it.

ghost use Rattle.std.specs.Prelude.{◌≡◌};
ghost use Rattle.filter_match.specs.walk.Walks.{turned, asks_all_of_and, asks_all_of_or, asked_next, join};

/// What is asked.
#[derive(Clone, Copy, PartialEq, Eq)]
pub(crate) enum Question {
    /// Whether it is True.
    IsTrue,
    /// Whether it is False.
    IsFalse,
    /// Nothing, since the answer is settled; it is no.
    Settled,
}

impl Question {
    /// The question to ask of what a `not` negates.
    pub(crate) fn turned(self) -> Question
        ensures { result ≡ turned self }
    {
        match self {
            Question::IsTrue => Question::IsFalse,
            Question::IsFalse => Question::IsTrue,
            Question::Settled => Question::Settled,
        }
    }

    /// Whether every member of an `and` has to answer yes, and not only one.
    pub(crate) fn asks_all_of_and(self) -> bool
        ensures { result ≡ asks_all_of_and self }
    {
        match self {
            Question::IsTrue => true,
            Question::IsFalse => false,
            Question::Settled => false,
        }
    }

    /// Whether every member of an `or` has to answer yes, and not only one.
    pub(crate) fn asks_all_of_or(self) -> bool
        ensures { result ≡ asks_all_of_or self }
    {
        match self {
            Question::IsTrue => false,
            Question::IsFalse => true,
            Question::Settled => false,
        }
    }

    /// What to ask of the next member: nothing where the answer so far is settled.
    pub(crate) fn asked_next(self, every: bool, so_far: bool) -> Question
        ensures { result ≡ asked_next every so_far self }
    {
        if every == so_far {
            self
        } else {
            Question::Settled
        }
    }
}

/// Two answers as one: both are yes, or one is.
pub(crate) fn join(every: bool, one: bool, other: bool) -> bool
    ensures { result ≡ join every one other }
{
    if every { one && other } else { one || other }
}
