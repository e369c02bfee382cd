//! The walk down a filter.

ghost use Rattle.std.specs.Prelude.{◌≡◌, ◌∷◌, []};
ghost use Rattle.filter_match.specs.Judging.{judged};
ghost use Rattle.filter_match.specs.Tests as items;
ghost use Rattle.filter_match.specs.walk.Walks.{tests_of, Walks};

use crate::asked::Test;
use crate::judge::Judge;
use crate::question::{Question, join};
use ldap_filter::{Filter, Node};

/// The answer to what was asked, and the tests of what comes behind.
#[derive(Drop)]
pub(crate) struct Walked<'t> {
    pub(crate) holds: bool,
    pub(crate) rest: &'t [Test],
}

/// Walks over an item.
fn item<'t, J: Judge>(question: Question, tests: &'t [Test], judge: &J) -> Walked<'t>
    ensures { (test : items.Test)
        → Walks (test ∷ []) (J.answers judge.now question test) tests.now result.holds result.rest.now }
{
    match tests.split_first() {
        Some((test, rest)) => Walked {
            holds: judge.answer(question, test),
            rest,
        },
        None => Walked {
            holds: false,
            rest: tests,
        },
    }
}

/// Walks over a filter: its own tests are the first. What is settled is passed over.
pub(crate) fn walk<'t, J: Judge>(
    filter: &Filter,
    question: Question,
    tests: &'t [Test],
    judge: &J,
) -> Walked<'t>
    ensures { Walks (tests_of filter.now) (judged (J.answers judge.now) question filter.now) tests.now result.holds result.rest.now }
{
    match &filter.node {
        Node::And(members) => {
            let every = question.asks_all_of_and();
            let mut holds = every;
            let mut rest = tests;
            for member in members {
                let asked = question.asked_next(every, holds);
                let walked = walk(member, asked, rest, judge);
                holds = join(every, holds, walked.holds);
                rest = walked.rest;
            }
            Walked { holds, rest }
        }
        Node::Or(members) => {
            let every = question.asks_all_of_or();
            let mut holds = every;
            let mut rest = tests;
            for member in members {
                let asked = question.asked_next(every, holds);
                let walked = walk(member, asked, rest, judge);
                holds = join(every, holds, walked.holds);
                rest = walked.rest;
            }
            Walked { holds, rest }
        }
        Node::Not(member) => walk(member, question.turned(), tests, judge),
        Node::Equal(_, _)
        | Node::Parts(_, _, _, _)
        | Node::AtLeast(_, _)
        | Node::AtMost(_, _)
        | Node::Present(_)
        | Node::Approx(_, _)
        | Node::Extensible(_) => item(question, tests, judge),
    }
}
