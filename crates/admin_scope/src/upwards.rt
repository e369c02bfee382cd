//! The points of a name, without memory.

ghost use Rattle.std.specs.Prelude.{◌≡◌, [], ◌∷◌, MatchOption, false, length};
ghost use Rattle.std.specs.Option.{option_map_or};
ghost use Rattle.admin_scope.specs.Walking.{points_up, is_specific_front, has_specific, first_front, walk_of};

use crate::roles::{is_inner, is_specific};
use dir_tree::dn_names::Dn;
use dir_tree::{EntryNo, Tree};
use std::marker::Model;

/// The numbers of the points of a name, from the name upwards. Contracts see the numbers that are left.
#[derive(Drop)]
pub(crate) struct PointWalk<'a> {
    tree: &'a Tree,
    name: &'a Dn,
    len: usize,
}

impl<'a> Model for PointWalk<'a> {
    ghost use Rattle.std.specs.Prelude.{ℕ, List};
    ghost use Rattle.admin_scope.specs.Walking.{points_up};

    ghost Value = { List ℕ };

    ghost view = { λ points. points_up points.len points.name.now points.tree.now };
}

impl<'a> Iterator for PointWalk<'a> {
    ghost use Rattle.std.specs.Iterator.{YieldsFirstBy, item_count};

    type Item = EntryNo;

    ghost next_gives = { YieldsFirstBy (λ no. no.0) (λ left. left) };

    ghost remaining = { item_count (λ left. left) };

    fn next(&mut self) -> Option<EntryNo> {
        next_point(self.tree, self.name, &mut self.len)
    }
}

// The first of the points that are left, which are those of so many RDNs at most.
fn next_point(tree: &Tree, name: &Dn, len: &mut usize) -> Option<EntryNo>
    ensures exact { MatchOption result
        ((points_up len.old name.now tree.now ≡ []) × (points_up len.new name.now tree.now ≡ []))
        (λ number. points_up len.old name.now tree.now ≡ number.0 ∷ points_up len.new name.now tree.now) }
{
    while *len > 0 {
        let front = *len;
        *len -= 1;
        if let Some(number) = tree.find_prefix(name, front) {
            if is_specific(tree, number) {
                *len = 0;
                return Some(number);
            }
            if is_inner(tree, number) {
                return Some(number);
            }
        }
    }
    None
}

// Whether the front of so many RDNs names a specific point.
fn is_specific_front(tree: &Tree, name: &Dn, len: usize) -> bool
    ensures exact { result ≡ is_specific_front len name.now tree.now }
{
    match tree.find_prefix(name, len) {
        Some(number) => is_specific(tree, number),
        None => false,
    }
}

// Whether a front of the name is a specific point.
fn has_specific(tree: &Tree, name: &Dn) -> bool
    ensures exact { result ≡ has_specific (length name.now) name.now tree.now }
{
    let mut len = name.len();
    while len > 0 {
        if is_specific_front(tree, name, len) {
            return true;
        }
        len -= 1;
    }
    false
}

// How many RDNs of the name to begin with.
fn first_front(tree: &Tree, name: &Dn) -> usize
    ensures exact { result ≡ first_front name.now tree.now }
{
    if has_specific(tree, name) {
        name.len()
    } else {
        0
    }
}

/// The walk over the inner points from the name upwards, up to and including the first specific one, or up to the root
/// where there is no specific one. Takes no memory.
pub(crate) fn walk_up<'a>(tree: &'a Tree, name: &'a Dn) -> PointWalk<'a>
    ensures exact { result ≡ points_up (length name.now) name.now tree.now }
{
    PointWalk {
        tree,
        name,
        len: name.len(),
    }
}

/// The walk over the points that govern an entry of the name (X.501 14.3): the inner points from the name upwards, up to
/// and including the first specific one; none where no specific one stands above it. No entry needs to have the name: the
/// points of an entry that is not in the tree yet begin at its superior. Takes no memory.
pub(crate) fn walk<'a>(tree: &'a Tree, name: &'a Dn) -> PointWalk<'a>
    ensures exact { result ≡ walk_of name.now tree.now }
{
    let len = first_front(tree, name);
    PointWalk { tree, name, len }
}
