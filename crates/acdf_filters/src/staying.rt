//! Which tuples stay for a requester, and by which user class.

ghost use Rattle.std.specs.Prelude.{◌≡◌};
ghost use Rattle.aci_item.specs.item.Views.{tuple_of};
ghost use Rattle.acdf_filters.specs.Filters.{stays, rank};
ghost use Rattle.acdf_filters.specs.weighing.Weighing.{KnowsGroups, asked_ranks};

use crate::question::Question;
use crate::users::{class_of, listed_class};
use aci_item::AciTuple;

/// Whether the tuple stays for the requester: a grant where it is in its classes, at a level that serves; a denial where it
/// is in them, or at one that does not. No memory is taken.
pub fn stays(question: &Question<'_>, tuple: &AciTuple) -> bool
    requires { KnowsGroups question.now }
    ensures exact { result ≡ stays question.now.who.now.level (tuple_of tuple.now)
        (asked_ranks question.now (tuple_of tuple.now)) }
{
    let above = tuple.level.is_above(question.who.level);
    match class_of(question, &tuple.classes) {
        Some(_) => !tuple.grants || !above,
        None => !tuple.grants && above,
    }
}

/// The rank of the class by which the tuple stays, from 0 to 3: the most specific one in which the requester is, or else
/// the most specific one that it lists. No memory is taken.
pub fn rank(question: &Question<'_>, tuple: &AciTuple) -> u8
    requires { KnowsGroups question.now }
    ensures exact { result ≡ rank (tuple_of tuple.now) (asked_ranks question.now (tuple_of tuple.now)) }
{
    match class_of(question, &tuple.classes) {
        Some(rank) => rank,
        None => listed_class(&tuple.classes),
    }
}
