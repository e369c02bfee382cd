//! How far a tuple comes.

ghost use Rattle.std.specs.Prelude.{◌≡◌};
ghost use Rattle.acdf_filters.specs.aci_item.item.Views.{tuple_of};
ghost use Rattle.acdf_filters.specs.Filters.{permits};
ghost use Rattle.acdf_filters.specs.weighing.Weighing.{KnowsGroups, asked_of, asked_ranks};
ghost use Rattle.certify.specs.LastFilter.{last_filter_by, last_of_three};

use acdf_filters::aci_item::AciTuple;
use acdf_filters::{Question, Standing, covers, is_barred, is_explicit, rank, stays};

// Whether the tuple has the permission, and extends to what is added.
fn permits(question: &Question<'_>, tuple: &AciTuple) -> bool
    ensures exact { result ≡ permits (asked_of question.now) (tuple_of tuple.now) }
{
    tuple.has(question.permission) && !is_barred(question, tuple)
}

// The number of the last filter that leaves a tuple that the first three leave.
fn last_of_three(question: &Question<'_>, seen: Standing, tuple: &AciTuple) -> u8
    requires { KnowsGroups question.now }
    ensures exact { result ≡ last_of_three (asked_of question.now) seen.precedence seen.rank seen.explicit
        (tuple_of tuple.now) (asked_ranks question.now (tuple_of tuple.now)) }
{
    if tuple.precedence != seen.precedence {
        3
    } else if rank(question, tuple) != seen.rank {
        4
    } else if seen.explicit && !is_explicit(&question.who.name, &question.item, &tuple.items) {
        5
    } else {
        6
    }
}

/// The number of the last filter that leaves the tuple, 0 where none does, by the state in which all tuples left the
/// decision.
pub(crate) fn last_filter(question: &Question<'_>, seen: Standing, tuple: &AciTuple) -> u8
    requires { KnowsGroups question.now }
    ensures exact { result ≡ last_filter_by (asked_of question.now) seen.precedence seen.rank seen.explicit
        (tuple_of tuple.now) (asked_ranks question.now (tuple_of tuple.now)) }
{
    if !stays(question, tuple) {
        0
    } else if !covers(&question.who.name, &question.item, &tuple.items) {
        1
    } else if !permits(question, tuple) {
        2
    } else {
        last_of_three(question, seen, tuple)
    }
}
