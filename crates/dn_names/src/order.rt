//! Which names are the same, which are prefixes, and which come first: by types and keys alone.

ghost use Rattle.std.specs.Prelude.{◌≡◌, take};
ghost use Rattle.dn_names.specs.NameOrder.{name_cmp, is_same, is_prefix_of};

use crate::name::Dn;
use std::cmp::Ordering;

/// Whether the names are the same.
#[tactic(auto, unfolding(crate::specs::NameOrder::is_same))]
pub fn same(one: &Dn, other: &Dn) -> bool
    ensures exact { result ≡ is_same one.now other.now }
{
    compare_names(one, other).is_eq()
}

/// Whether `front` is a prefix of `name`, or the same name.
#[tactic(auto, unfolding(crate::specs::NameOrder::is_same, crate::specs::NameOrder::is_prefix_of))]
pub fn is_prefix(front: &Dn, name: &Dn) -> bool
    ensures exact { result ≡ is_prefix_of front.now name.now }
{
    compare_front(name, front.len(), front).is_eq()
}

/// The order of names: the first RDN that differs, counted from the root, decides; a name comes after its fronts.
pub fn compare_names(one: &Dn, other: &Dn) -> Ordering
    ensures exact { result ≡ name_cmp one.now other.now }
{
    one.path().as_slice().cmp(other.path().as_slice())
}

/// The order of the first `len` RDNs of `name`, all of them where it has fewer, and `other`.
pub fn compare_front(name: &Dn, len: usize, other: &Dn) -> Ordering
    ensures exact { result ≡ name_cmp (take len name.now) other.now }
{
    name.front_path(len).cmp(other.path().as_slice())
}
