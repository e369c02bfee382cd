//! Items answered by the entry alone.

ghost use Rattle.std.specs.Prelude.{◌≡◌};
ghost use Rattle.filter_match.specs.Judging.{possible, has_possible};

use crate::asked::{Asks, Test};
use crate::judge::Judge;
use crate::matching::has_possible;
use crate::question::Question;
use dir_tree::Entry;

/// Answers by the entry alone: yes where some permission may make it so.
#[derive(Drop)]
pub(crate) struct Possible<'a> {
    pub(crate) entry: &'a Entry,
}

/// Whether the test may be True of the entry.
#[tactic(auto, unfolding(crate::specs::Judging::has_possible))]
fn may_be_true(test: &Test, entry: &Entry) -> bool
    ensures { result ≡ has_possible entry.now test.now }
{
    match &test.asks {
        Asks::Nothing => false,
        Asks::IsThere(kind) => entry.has_kind(*kind),
        Asks::HasValue(kind, asserted) => has_possible(asserted, *kind, entry),
    }
}

impl<'a> Judge for Possible<'a> {
    ghost answers = { λ judge. possible judge.entry.now };

    fn answer(&self, question: Question, test: &Test) -> bool {
        match question {
            Question::IsTrue => may_be_true(test, self.entry),
            Question::IsFalse => true,
            Question::Settled => false,
        }
    }
}
