//! The access control subentries of a tree, each with its subtree.

ghost use Rattle.std.specs.Prelude.{◌≡◌, ◌==◌, ◌+◌, length, IfOk, option_map};
ghost use Rattle.std.specs.Result.{result_ok};
ghost use Rattle.dir_tree.specs.Scope.{is_child};
ghost use Rattle.subtree_spec.specs.Subtrees.{subtree_of};
ghost use Rattle.subtree_spec.specs.SubtreeText.{read_subtree};
ghost use Rattle.admin_scope.specs.InForce.{subtree_of_entry};
ghost use Rattle.admin_scope.specs.Finding.{AreSubtrees, holds_by, holds_read, subtree_at};

use crate::membership::holds;
use dir_tree::dn_names::{Dn, is_prefix};
use dir_tree::schema_tables::AttrId;
use dir_tree::{Entry, EntryNo, NoMemory, Tree};
use std::alloc::{AllocError, Global};
use subtree_spec::{BadText, Spec, read};

/// An access control subentry, by its number, with its subtree.
#[derive(Drop)]
pub struct AccessSubentry {
    pub number: EntryNo,
    /// None where the subentry says no subtree.
    pub subtree: Option<Spec>,
}

// The subtree that the octets say; None where they say none.
fn read_octets(alloc: Global, octets: &[u8]) -> Result<Option<Spec>, NoMemory>
    ensures exact { IfOk result (λ spec. option_map subtree_of spec ≡ result_ok (read_subtree octets.now)) }
{
    match read(alloc, octets) {
        Ok(spec) => Ok(Some(spec)),
        Err(BadText::NoMemory) => Err(AllocError),
        Err(BadText::Text) => Ok(None),
        Err(BadText::Part { .. }) => Ok(None),
    }
}

/// The subtree of a subentry, from the text of its subtreeSpecification (RFC 3672 section 2.1); None where it has no
/// value, or one that is no such text. The error comes where memory is wanted.
#[tactic(auto, unfolding(crate::specs::InForce::subtree_of_entry))]
pub fn subtree(alloc: Global, subentry: &Entry) -> Result<Option<Spec>, NoMemory>
    ensures exact { IfOk result (λ spec. option_map subtree_of spec ≡ subtree_of_entry subentry.now) }
{
    match subentry.values(AttrId::SUBTREE_SPECIFICATION) {
        [value, ..] => read_octets(alloc, value.octets()),
        [] => Ok(None),
    }
}

// The subtree of the entry of the number.
fn subtree_at(alloc: Global, tree: &Tree, number: EntryNo) -> Result<Option<Spec>, NoMemory>
    ensures exact { IfOk result (λ spec. option_map subtree_of spec ≡ subtree_at number.0 tree.now) }
{
    match tree.at(number) {
        Some(subentry) => subtree(alloc, subentry),
        None => Ok(None),
    }
}

// The subentry of the number, with its subtree.
fn read_at(alloc: Global, tree: &Tree, number: EntryNo) -> Result<AccessSubentry, NoMemory>
    ensures number { IfOk result (λ one. one.number.0 ≡ number.0) }
    ensures subtree { IfOk result (λ one. option_map subtree_of one.subtree ≡ subtree_at one.number.0 tree.now) }
{
    let subtree = subtree_at(alloc, tree, number)?;
    Ok(AccessSubentry { number, subtree })
}

/// The access control subentries of the tree in the order of the names, each with its subtree, which is read once. The
/// error comes where memory is wanted.
pub fn access_subtrees(alloc: Global, tree: &Tree) -> Result<Vec<AccessSubentry>, NoMemory>
    ensures ok { IfOk result (λ list. AreSubtrees list.items tree.now) }
{
    let numbers = tree.access_subentries();
    let mut list = Vec::new(alloc);
    for number in numbers {
        list.push(read_at(alloc, tree, *number)?)?;
    }
    Ok(list)
}

// Whether the name has one RDN more than the point's.
fn is_one_longer(point: &Dn, name: &Dn) -> bool
    ensures exact { result ≡ (length name.now == length point.now + 1) }
{
    name.len() > point.len() && name.len() - point.len() == 1
}

// Whether the entry stands immediately below the point.
fn is_child(point: &Entry, entry: &Entry) -> bool
    ensures exact { result ≡ is_child point.now.name entry.now }
{
    is_one_longer(point.name(), entry.name()) && is_prefix(point.name(), entry.name())
}

// Whether the subtree, if there is one, holds the entry.
fn holds_read(subtree: &Option<Spec>, point: &Entry, entry: &Entry) -> bool
    ensures exact { result ≡ holds_read (option_map subtree_of subtree.now) point.now entry.now }
{
    match subtree {
        Some(spec) => holds(spec, point.name(), entry),
        None => false,
    }
}

/// Whether the subentry stands immediately below the point, and its subtree holds the entry. No memory is taken.
pub(crate) fn holds_under(
    tree: &Tree,
    subentry: &AccessSubentry,
    point: &Entry,
    entry: &Entry,
) -> bool
    ensures exact { result ≡ holds_by tree.now entry.now point.now subentry.now }
{
    match tree.at(subentry.number) {
        Some(below) => is_child(point, below) && holds_read(&subentry.subtree, point, entry),
        None => false,
    }
}
