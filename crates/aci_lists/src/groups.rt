//! The groups that the items of a directory name, and in which of them a requester is.

ghost use Rattle.std.specs.Prelude.{◌≡◌, Some, IfOk, map};
ghost use Rattle.dir_tree.specs.tree.Numbered.{entries_of};
ghost use Rattle.acdf_filters.specs.weighing.Weighing.{AreMemberships};
ghost use Rattle.acdf_filters.specs.Memberships.{groups_of};

use crate::kept::Kept;
use acdf_filters::aci_item::AciTuple;
use acdf_filters::{Membership, NamedRequester, Requester};
use dir_tree::dn_names::{Dn, compare_names};
use dir_tree::{NoMemory, Tree};
use std::alloc::Global;

// Puts a group in its place among those in the order of names, where it is not there yet.
fn put_group(alloc: Global, group: &Dn, groups: &mut Vec<Dn>) -> Result<(), NoMemory> {
    if let Err(place) = groups.binary_search_by(|other| compare_names(other, group)) {
        groups.insert(place, group.copy(alloc)?)?;
    }
    Ok(())
}

// Puts the groups of tuples so.
fn put_groups(alloc: Global, tuples: &[AciTuple], groups: &mut Vec<Dn>) -> Result<(), NoMemory> {
    for tuple in tuples {
        for group in tuple.classes.groups.iter() {
            put_group(alloc, group, groups)?;
        }
    }
    Ok(())
}

/// Puts the groups that the items of an entry name among the groups, which stand in the order of names, each once. The
/// error comes where memory is wanted.
pub fn put_groups_of(alloc: Global, lists: &Kept, groups: &mut Vec<Dn>) -> Result<(), NoMemory> {
    put_groups(alloc, &lists.prescriptive.tuples, groups)?;
    put_groups(alloc, &lists.own.tuples, groups)?;
    put_groups(alloc, &lists.below.tuples, groups)
}

/// The groups that kept items name, each once, in the order of names. The error comes where memory is wanted.
pub(crate) fn named_groups(alloc: Global, kept: &[Kept]) -> Result<Vec<Dn>, NoMemory> {
    let mut groups = Vec::new(alloc);
    for lists in kept {
        put_groups_of(alloc, lists, &mut groups)?;
    }
    Ok(groups)
}

// The memberships of a name in the groups.
fn ask_groups(
    alloc: Global,
    tree: &Tree,
    name: &Dn,
    groups: &[Dn],
) -> Result<Vec<Membership>, NoMemory>
    ensures ok { IfOk result (λ known. AreMemberships (entries_of tree.now) (Some name.now) known.items) }
    ensures groups { IfOk result (λ known. groups_of known.items ≡ groups.now) }
{
    let mut known = Vec::new(alloc);
    let mut named = NamedRequester::new(name);
    for group in groups {
        known.push(Membership {
            group: group.copy(alloc)?,
            member: named.is_in_group(alloc, tree, group)?,
        })?;
    }
    Ok(known)
}

/// The memberships of the requester in the groups; none for an anonymous one, for which no group is looked at. The
/// error comes where memory is wanted.
pub fn memberships_in(
    alloc: Global,
    tree: &Tree,
    who: &Requester,
    groups: &[Dn],
) -> Result<Vec<Membership>, NoMemory>
    ensures ok { IfOk result (λ known. AreMemberships (entries_of tree.now) who.now.name known.items) }
{
    match &who.name {
        Some(name) => ask_groups(alloc, tree, name, groups),
        None => Ok(Vec::new(alloc)),
    }
}
