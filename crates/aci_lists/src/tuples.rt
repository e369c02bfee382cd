//! Tuples in the order of precedence.

ghost use Rattle.std.specs.Prelude.{◌≡◌, [], map};
ghost use Rattle.acdf_filters.specs.aci_item.item.Views.{tuple_of};
ghost use Rattle.aci_lists.specs.Order.{IsHighestFirst, ordered-prop};

use acdf_filters::aci_item::AciTuple;
use std::alloc::Global;

/// Tuples, those of the highest precedence first.
#[derive(Drop)]
pub struct OrderedTuples {
    pub tuples: Vec<AciTuple>,
    pub ghost ordered: { IsHighestFirst (map tuple_of tuples.items) } by { ordered-prop (map tuple_of tuples.items) },
}

impl OrderedTuples {
    /// No tuples. Takes no memory.
    pub fn new(alloc: Global) -> OrderedTuples
        ensures { result.tuples.items ≡ [] }
    {
        OrderedTuples {
            tuples: Vec::new(alloc),
        }
    }
}
