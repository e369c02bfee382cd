//! Items answered by the entry and by permission.

ghost use Rattle.std.specs.Prelude.{◌≡◌};
ghost use Rattle.filter_match.specs.Judging.{exact};
ghost use Rattle.filter_match.specs.Truth.{if_permitted, test_truth};
ghost use Rattle.filter_match.specs.walk.Walks.{answer};

use crate::allow::Allow;
use crate::asked::{Asks, Test};
use crate::judge::Judge;
use crate::matching::has_match;
use crate::question::Question;
use dir_tree::Entry;
use dir_tree::schema_tables::AttrId;

/// Answers by the entry and by permission.
#[derive(Drop)]
pub(crate) struct Exact<'a, A> {
    pub(crate) entry: &'a Entry,
    pub(crate) allow: &'a A,
}

/// The answer of an item, by whether it was found; permission on the type is asked only where it decides.
fn if_permitted<A: Allow>(question: Question, kind: AttrId, found: bool, allow: &A) -> bool
    ensures { result ≡ answer question (if_permitted (A.permits allow.now) kind.0 found) }
{
    match question {
        Question::IsTrue => found && allow.kind(kind),
        Question::IsFalse => !found && allow.kind(kind),
        Question::Settled => false,
    }
}

/// The answer of a test.
#[tactic(auto, unfolding(crate::specs::Truth::test_truth))]
fn answer_of<A: Allow>(question: Question, test: &Test, entry: &Entry, allow: &A) -> bool
    ensures { result ≡ answer question (test_truth (A.permits allow.now) entry.now test.now) }
{
    match &test.asks {
        Asks::Nothing => false,
        Asks::IsThere(kind) => if_permitted(question, *kind, entry.has_kind(*kind), allow),
        Asks::HasValue(kind, asserted) => {
            if_permitted(
                question,
                *kind,
                has_match(asserted, *kind, entry, allow),
                allow,
            )
        }
    }
}

impl<'a, A: Allow> Judge for Exact<'a, A> {
    ghost answers = { λ judge. exact (A.permits judge.allow.now) judge.entry.now };

    fn answer(&self, question: Question, test: &Test) -> bool {
        question != Question::Settled && answer_of(question, test, self.entry, self.allow)
    }
}
