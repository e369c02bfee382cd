//! How much a tree and an entry hold at most.

ghost use Rattle.std.specs.Prelude.{◌≡◌, false, ◌&&◌, nat_le, nat_lt, length};
ghost use Rattle.std.specs.Option.{option_map, option_map_or};
ghost use Rattle.dir_tree.specs.tree.Numbered.{IsNumberedTree, entries_of};
ghost use Rattle.dir_tree.specs.Points.{is_access_subentry, access_subentries};
ghost use Rattle.schema_rules.specs.Checking.{replaced, others};
ghost use Rattle.dir_tree.specs.tree.Trees.{most_entries};
ghost use Rattle.aci_item.specs.Rules.{most_subentries, most_octets_in, octets_in, is_past_limits};

use crate::old::replaced;
use crate::values::{MOST_OCTETS, octets_in};
use dir_tree::{Entry, EntryNo, MOST_ENTRIES, Tree};

/// How many access control subentries a tree has at most.
const MOST_SUBENTRIES: usize = 256;

/// Whether the tree is full without the entry whose place is taken, the entry is one access control subentry more than
/// the tree may have, or its values have too many octets.
#[tactic(auto, unfolding(aci_item::specs::Rules::is_past_limits))]
pub(crate) fn is_past_limits(tree: &Tree, old: Option<EntryNo>, entry: &Entry) -> bool
    ensures exact { result ≡ is_past_limits (others (option_map (λ no. no.0) old) tree.now) entry.now }
{
    is_full(tree, old) || is_subentry_too_many(tree, old, entry) || is_too_large(entry)
}

// Whether as many entries stand beside the one whose place is taken as a tree may have.
fn is_full(tree: &Tree, old: Option<EntryNo>) -> bool
    ensures exact { result ≡ nat_le most_entries (length (others (option_map (λ no. no.0) old) tree.now)) }
{
    count_beside(tree, old) >= MOST_ENTRIES
}

// How many entries stand beside the one whose place is taken.
fn count_beside(tree: &Tree, old: Option<EntryNo>) -> usize
    ensures exact { result ≡ length (others (option_map (λ no. no.0) old) tree.now) }
{
    match replaced(tree, old) {
        Some(_) => tree.len().saturating_sub(1),
        None => tree.len(),
    }
}

// Whether the entry is an access control subentry, and the tree has as many others as it may.
fn is_subentry_too_many(tree: &Tree, old: Option<EntryNo>, entry: &Entry) -> bool
    ensures exact { result
        ≡ (is_access_subentry entry.now
        && nat_le most_subentries (access_subentries (others (option_map (λ no. no.0) old) tree.now))) }
{
    is_full_of_subentries(tree, old) && entry.is_access_subentry()
}

// Whether as many access control subentries stand beside the entry whose place is taken as a tree may have.
fn is_full_of_subentries(tree: &Tree, old: Option<EntryNo>) -> bool
    ensures exact { result
        ≡ nat_le most_subentries (access_subentries (others (option_map (λ no. no.0) old) tree.now)) }
{
    subentries_beside(tree, old) >= MOST_SUBENTRIES
}

// How many access control subentries stand beside the entry whose place is taken.
fn subentries_beside(tree: &Tree, old: Option<EntryNo>) -> usize
    ensures exact { result ≡ access_subentries (others (option_map (λ no. no.0) old) tree.now) }
{
    if takes_subentry(tree, old) {
        count_subentries(tree).saturating_sub(1)
    } else {
        count_subentries(tree)
    }
}

// How many access control subentries the tree has.
fn count_subentries(tree: &Tree) -> usize
    ensures exact { result ≡ access_subentries (entries_of tree.now) }
{
    tree.access_subentries().len()
}

// Whether the entry whose place is taken is an access control subentry.
fn takes_subentry(tree: &Tree, old: Option<EntryNo>) -> bool
    ensures exact { result
        ≡ option_map_or is_access_subentry (replaced (option_map (λ no. no.0) old) tree.now) false }
    ensures tree { IsNumberedTree tree.now }
{
    match replaced(tree, old) {
        Some(entry) => entry.is_access_subentry(),
        None => false,
    }
}

// Whether the entry's values have more octets than they may.
fn is_too_large(entry: &Entry) -> bool
    ensures exact { result ≡ nat_lt most_octets_in (octets_in entry.now) }
{
    octets_in(entry) > MOST_OCTETS
}
