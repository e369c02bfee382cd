//! Which names belong to a subtree.

ghost use Rattle.std.specs.Prelude.{◌≡◌, ◌≤◌, ◌+◌, ◌++◌, ◌&&◌, [], true, false, MatchOption, IfSome, length, drop, nat_lt, slice_index_or};
ghost use Rattle.std.specs.List.{list_any};
ghost use Rattle.dn_names.specs.NameOrder.{pair_cmp, rdn_cmp, is_prefix_of};
ghost use Rattle.subtree_spec.specs.membership.Membership.{is_within, holds_rest, holds_below, holds_name};
ghost use Rattle.subtree_spec.specs.Subtrees.{subtree_of};

use crate::spec::Spec;
use dn_names::{Dn, Pair, is_prefix};
use std::cmp::Ordering;

fn compare_pair(one: &Pair, other: &Pair) -> Ordering
    ensures exact { result ≡ pair_cmp one.now other.now }
{
    match one.kind().0.cmp(&other.kind().0) {
        Ordering::Equal => one.value().key().cmp(other.value().key()),
        order => order,
    }
}

fn compare_rdn(one: &[Pair], other: &[Pair]) -> Ordering
    ensures exact { result ≡ rdn_cmp one.now other.now }
{
    for (index, pair) in one.iter().enumerate() {
        if index == other.len() {
            return Ordering::Greater;
        }
        let order = compare_pair(pair, &other[index]);
        if order != Ordering::Equal {
            return order;
        }
    }
    one.len().cmp(&other.len())
}

// The RDN of this number; no pairs past the last.
fn rdn_at(name: &Dn, index: usize) -> &[Pair]
    ensures exact { result.now ≡ slice_index_or name.now index [] }
{
    match name.rdn(index) {
        Some(rdn) => rdn,
        None => &[],
    }
}

// Whether the RDNs of a name from this number on begin with a front.
fn begins_at(name: &Dn, at: usize, front: &Dn) -> bool
    requires { at ≤ length name.now }
    ensures exact { result ≡ is_prefix_of front.now (drop at name.now) }
{
    if front.len() > name.len() - at {
        return false;
    }
    for index in 0..front.len() {
        if compare_rdn(rdn_at(name, at + index), rdn_at(front, index)).is_ne() {
            return false;
        }
    }
    true
}

// Whether one of the names begins the RDNs of a name from this number on.
fn has_before(names: &[Dn], name: &Dn, at: usize) -> bool
    requires { at ≤ length name.now }
    ensures exact { result ≡ list_any (λ front. is_prefix_of front (drop at name.now)) names.now }
{
    names.iter().any(|front| begins_at(name, at, front))
}

// Whether these RDNs begin with a front, and have more.
#[tactic(auto, using(crate::proofs::membership::FrontLemmas::drop_length))]
fn goes_beyond(name: &Dn, at: usize, front: &Dn) -> bool
    requires { at ≤ length name.now }
    ensures exact { result ≡ (nat_lt (length front.now) (length (drop at name.now)) && is_prefix_of front.now (drop at name.now)) }
{
    if front.len() < name.len() - at {
        begins_at(name, at, front)
    } else {
        false
    }
}

// Whether one of the names begins these RDNs, which have more.
fn has_after(names: &[Dn], name: &Dn, at: usize) -> bool
    requires { at ≤ length name.now }
    ensures exact { result ≡ list_any (λ front.
        nat_lt (length front) (length (drop at name.now)) && is_prefix_of front (drop at name.now)) names.now }
{
    names.iter().any(|front| goes_beyond(name, at, front))
}

// Whether so many RDNs are at most the maximum.
fn is_within(maximum: Option<u32>, count: usize) -> bool
    ensures exact { result ≡ is_within maximum count }
{
    match maximum {
        Some(maximum) => count <= maximum as usize,
        None => true,
    }
}

// Whether the RDNs of a name from this number on are those of a name below the base.
fn holds_rest(spec: &Spec, name: &Dn, at: usize) -> bool
    requires { at ≤ length name.now }
    ensures exact { result ≡ holds_rest (subtree_of spec.now) (drop at name.now) }
{
    let count = name.len() - at;
    spec.minimum as usize <= count
        && is_within(spec.maximum, count)
        && !has_before(&spec.before, name, at)
        && !has_after(&spec.after, name, at)
}

// Where the rest of a name begins that is the point's, then the base, then a rest; None where it is no such name.
#[tactic(auto, using(crate::proofs::membership::FrontLemmas::prefix_append, crate::proofs::membership::FrontLemmas::prefix_short))]
fn rest_at(point: &Dn, base: &Dn, name: &Dn) -> Option<usize>
    ensures exact { MatchOption result (is_prefix_of (point.now ++ base.now) name.now ≡ false)
        (λ at. (is_prefix_of (point.now ++ base.now) name.now ≡ true) × (at ≡ length point.now + length base.now)) }
    ensures fits { IfSome result (λ at. at ≤ length name.now) }
{
    if point.len() > name.len() {
        return None;
    }
    if base.len() > name.len() - point.len() {
        return None;
    }
    if !is_prefix(point, name) {
        return None;
    }
    if !begins_at(name, point.len(), base) {
        return None;
    }
    Some(point.len() + base.len())
}

/// Whether a name belongs to the subtree of a point, the refinement aside: it is the point's, then the base, then a rest
/// that no exclusion and no distance takes out. No memory is taken.
#[tactic(auto, unfolding(crate::specs::membership::Membership::holds_below))]
pub fn holds_below(spec: &Spec, point: &Dn, name: &Dn) -> bool
    ensures exact { result ≡ holds_below (subtree_of spec.now) point.now name.now }
{
    match rest_at(point, &spec.base, name) {
        Some(at) => holds_rest(spec, name, at),
        None => false,
    }
}

/// The same for a base that is read from the root, as user classes have it.
#[tactic(auto, using(crate::proofs::membership::FrontLemmas::prefix_short), unfolding(crate::specs::membership::Membership::holds_name))]
pub fn holds_name(spec: &Spec, name: &Dn) -> bool
    ensures exact { result ≡ holds_name (subtree_of spec.now) name.now }
{
    if spec.base.len() > name.len() {
        return false;
    }
    if !is_prefix(&spec.base, name) {
        return false;
    }
    holds_rest(spec, name, spec.base.len())
}
