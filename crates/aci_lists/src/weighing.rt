//! Tuples in the order of precedence, weighed one after the other.

ghost use Rattle.std.specs.Prelude.{◌≡◌, map, fold};
ghost use Rattle.acdf_filters.specs.aci_item.item.Views.{tuple_of};
ghost use Rattle.acdf_filters.specs.weighing.Weighing.{KnowsGroups, weighed_for};
ghost use Rattle.aci_lists.specs.Order.{IsHighestFirst};

use acdf_filters::aci_item::AciTuple;
use acdf_filters::{Question, Standing, weigh};

/// The state with tuples weighed one after the other, of which those of the highest precedence come first. No tuple is
/// looked at after the first of a lower precedence than those seen, since none of them changes the state. No memory is
/// taken.
pub fn weigh_in_order(question: &Question<'_>, tuples: &[AciTuple], seen: Standing) -> Standing
    requires known { KnowsGroups question.now }
    requires ordered { IsHighestFirst (map tuple_of tuples.now) }
    ensures exact { result ≡ fold (weighed_for question.now) seen (map tuple_of tuples.now) }
{
    let mut now = seen;
    for tuple in tuples {
        if tuple.precedence < now.precedence {
            return now;
        }
        now = weigh(question, tuple, now);
    }
    now
}
