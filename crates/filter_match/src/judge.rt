//! Who answers for items.

ghost use Rattle.std.specs.Prelude.{◌≡◌, Bool};
ghost use Rattle.filter_match.specs.Tests as items;

use crate::asked::Test;
use crate::question::Question;

/// Answers for items.
pub(crate) trait Judge {
    ghost use Rattle.filter_match.specs.declared.question.Question.{Question as Asked};

    ghost answers: { Self → Asked → items.Test → Bool };

    /// The answer of an item.
    fn answer(&self, question: Question, test: &Test) -> bool
        ensures { result ≡ answers self.now question test.now };
}
