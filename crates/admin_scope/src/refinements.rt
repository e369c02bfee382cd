//! Refinements of an entry's classes.

ghost use Rattle.std.specs.Prelude.{◌≡◌, option_map};
ghost use Rattle.subtree_spec.specs.Subtrees.{choice_of};
ghost use Rattle.admin_scope.specs.Refinements.{is_true_of, meets_filter};

use dir_tree::Entry;
use subtree_spec::Refinement;

// Whether the refinement is true of the entry's classes.
fn is_true_of(refinement: &Refinement, entry: &Entry) -> bool
    ensures exact { result ≡ is_true_of (choice_of refinement.now) entry.now }
{
    match refinement {
        Refinement::Item(oid) => entry.has_class(oid.as_str()),
        Refinement::And(members) => {
            for needed in members {
                if !is_true_of(needed, entry) {
                    return false;
                }
            }
            true
        }
        Refinement::Or(members) => {
            for enough in members {
                if is_true_of(enough, entry) {
                    return true;
                }
            }
            false
        }
        Refinement::Not(member) => !is_true_of(member, entry),
    }
}

/// Whether the entry's classes meet the refinement, if there is one.
pub(crate) fn meets_filter(filter: &Option<Refinement>, entry: &Entry) -> bool
    ensures exact { result ≡ meets_filter (option_map choice_of filter.now) entry.now }
{
    match filter {
        Some(refinement) => is_true_of(refinement, entry),
        None => true,
    }
}
