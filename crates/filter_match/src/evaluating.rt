//! Filters evaluated over entries.

ghost use Rattle.std.specs.Prelude.{◌≡◌, true};
ghost use Rattle.filter_match.specs.Judging.{judged, possible};
ghost use Rattle.filter_match.specs.Truth.{truth, is_true};
ghost use Rattle.filter_match.specs.walk.Walks.{answer};

use crate::allow::Allow;
use crate::exact::Exact;
use crate::judge::Judge;
use crate::possible::Possible;
use crate::prepared::Prepared;
use crate::question::Question;
use crate::truth::Truth;
use crate::walk::walk;
use dir_tree::Entry;

/// The answer to a question of the filter, by those of its items.
pub(crate) fn judge<J: Judge>(filter: &Prepared<'_>, question: Question, judge: &J) -> bool
    ensures exact { result ≡ judged (J.answers judge.now) question filter.now }
{
    walk(filter.filter(), question, filter.tests(), judge).holds
}

/// The answer to a question of the filter.
fn ask<A: Allow>(filter: &Prepared<'_>, question: Question, entry: &Entry, allow: &A) -> bool
    ensures exact { result ≡ answer question (truth (A.permits allow.now) entry.now filter.now) }
{
    judge(filter, question, &Exact { entry, allow })
}

/// Whether the filter may be True of the entry, whatever is permitted.
fn may_be_true(filter: &Prepared<'_>, entry: &Entry) -> bool
    ensures exact { result ≡ judged (possible entry.now) Question.IsTrue filter.now }
{
    judge(filter, Question::IsTrue, &Possible { entry })
}

/// Whether the filter is True of the entry. Where no permission could make it True, none is asked. Takes no memory.
pub fn is_true<A: Allow>(filter: &Prepared<'_>, entry: &Entry, allow: &A) -> bool
    ensures exact { result ≡ is_true (truth (A.permits allow.now) entry.now filter.now) }
{
    may_be_true(filter, entry) && ask(filter, Question::IsTrue, entry, allow)
}

/// What the filter is of the entry (RFC 4511 4.5.1.7). Takes no memory.
pub fn evaluate<A: Allow>(filter: &Prepared<'_>, entry: &Entry, allow: &A) -> Truth
    ensures exact { result ≡ truth (A.permits allow.now) entry.now filter.now }
{
    if is_true(filter, entry, allow) {
        return Truth::True;
    }
    if ask(filter, Question::IsFalse, entry, allow) {
        return Truth::False;
    }
    Truth::Undefined
}
