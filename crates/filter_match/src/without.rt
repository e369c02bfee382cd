//! Items answered of an entry without a value.

ghost use Rattle.std.specs.Prelude.{◌≡◌};
ghost use Rattle.filter_match.specs.Asked.{assertion_asked};
ghost use Rattle.filter_match.specs.Needs.{asks_for, is_key, without};

use crate::asked::{Asks, Asserted, Test};
use crate::judge::Judge;
use crate::question::Question;
use dir_tree::schema_tables::AttrId;

/// Answers of an entry that has no value of the type with the key: yes where such an entry and some permission may
/// make it so.
#[derive(Drop)]
pub(crate) struct Without<'a> {
    pub(crate) kind: AttrId,
    pub(crate) key: &'a [u8],
}

/// Whether the key is what is asserted.
fn is_key(asserted: &Asserted, key: &[u8]) -> bool
    ensures { result ≡ is_key key.now (assertion_asked asserted.now) }
{
    match asserted {
        Asserted::HasKey(value) => value.key() == key,
        Asserted::IsClass(_)
        | Asserted::IsAtLeast(_)
        | Asserted::IsAtMost(_)
        | Asserted::HasParts(_, _, _) => false,
    }
}

/// Whether the test asks for the key of the type.
fn asks_for(test: &Test, kind: AttrId, key: &[u8]) -> bool
    ensures { result ≡ asks_for kind.0 key.now test.now }
{
    match &test.asks {
        Asks::Nothing | Asks::IsThere(_) => false,
        Asks::HasValue(other, asserted) => *other == kind && is_key(asserted, key),
    }
}

impl<'a> Judge for Without<'a> {
    ghost answers = { λ judge. without judge.kind.0 judge.key.now };

    fn answer(&self, question: Question, test: &Test) -> bool {
        match question {
            Question::IsTrue => !asks_for(test, self.kind, self.key),
            Question::IsFalse => true,
            Question::Settled => false,
        }
    }
}
