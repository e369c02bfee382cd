//! Which entries belong to a subtree.

ghost use Rattle.std.specs.Prelude.{◌≡◌};
ghost use Rattle.subtree_spec.specs.Subtrees.{subtree_of};
ghost use Rattle.admin_scope.specs.Refinements.{holds};

use crate::refinements::meets_filter;
use dir_tree::Entry;
use dir_tree::dn_names::Dn;
use subtree_spec::{Spec, holds_below};

/// Whether the subtree of a point of this name holds the entry (X.501 12.3): the entry stands in its place, and its
/// classes, superclasses counted, meet the refinement. Of an empty `and` this is true, of an empty `or` false. Takes no
/// memory.
#[tactic(auto, unfolding(crate::specs::Refinements::holds))]
pub fn holds(spec: &Spec, point: &Dn, entry: &Entry) -> bool
    ensures exact { result ≡ holds (subtree_of spec.now) point.now entry.now }
{
    if holds_below(spec, point, entry.name()) {
        meets_filter(&spec.filter, entry)
    } else {
        false
    }
}
