//! What the filters ask of a tuple.

ghost use Rattle.std.specs.Prelude.{◌≡◌};
ghost use Rattle.acdf_filters.specs.aci_item.item.Views.{tuple_of};
ghost use Rattle.acdf_filters.specs.weighing.Weighing.{KnowsGroups, asked_of, asked_ranks};
ghost use Rattle.explanation.specs.Candidates.{facts_of};

use acdf_filters::aci_item::AciTuple;
use acdf_filters::{Question, covers, is_barred, is_explicit, rank, stays};

/// What the filters ask of a tuple, answered.
#[derive(Clone, Copy)]
pub(crate) struct Facts {
    /// The requester is in its classes at a level that serves, or the other way round for a denial.
    pub stays: bool,
    /// It covers the item.
    pub covers: bool,
    /// It has the permission, and extends to what is added.
    pub permitted: bool,
    pub precedence: u8,
    /// How specific the class is by which it stays.
    pub rank: u8,
    /// It names the item explicitly.
    pub explicit: bool,
    pub grants: bool,
}

/// The answers for a tuple.
pub(crate) fn facts_for(question: &Question<'_>, tuple: &AciTuple) -> Facts
    requires { KnowsGroups question.now }
    ensures exact { result ≡ facts_of (asked_of question.now) (tuple_of tuple.now)
        (asked_ranks question.now (tuple_of tuple.now)) }
{
    Facts {
        stays: stays(question, tuple),
        covers: covers(&question.who.name, &question.item, &tuple.items),
        permitted: tuple.has(question.permission) && !is_barred(question, tuple),
        precedence: tuple.precedence,
        rank: rank(question, tuple),
        explicit: is_explicit(&question.who.name, &question.item, &tuple.items),
        grants: tuple.grants,
    }
}
