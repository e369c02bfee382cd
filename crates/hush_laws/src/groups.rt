//! The groups that access control items name (X.501 18.4.2.5).

ghost use Rattle.std.specs.Prelude.{◌≡◌, IfOk, flat_map, map};
ghost use Rattle.std.specs.List.{list_any};
ghost use Rattle.std.specs.Option.{option_map_or};
ghost use Rattle.dir_tree.specs.dn_names.NameOrder.{is_prefix_of};
ghost use Rattle.dir_tree.specs.tree.Numbered.{entries_of};
ghost use Rattle.aci_item.specs.item.Views.{first_of, item_permission_of};
ghost use Rattle.op_read.specs.twin_laws.Groups.{groups_of, names_group, names_group_in, lists_group};
ghost use Rattle.hush_laws.specs.TwinParts.{lists_group_outside};

use crate::rows::Rows;
use aci_item::{BadText, First, ItemPermission, read};
use dir_tree::dn_names::{Dn, Value, is_prefix};
use dir_tree::schema_tables::AttrId;
use dir_tree::{Entry, NoMemory, Tree};
use std::alloc::{AllocError, Global};

// Whether one of the names is at or below the name.
fn has_within(top: &Dn, groups: &[Dn]) -> bool
    ensures exact { result ≡ list_any (is_prefix_of top.now) groups.now }
{
    for group in groups {
        if is_prefix(top, group) {
            return true;
        }
    }
    false
}

// Whether one of the permissions is for a group that is.
fn permits_within(top: &Dn, permissions: &[ItemPermission]) -> bool
    ensures exact { result ≡ list_any (is_prefix_of top.now)
        (flat_map (λ permission. permission.classes.groups) (map item_permission_of permissions.now)) }
{
    for permission in permissions {
        if has_within(top, &permission.classes.groups) {
            return true;
        }
    }
    false
}

// Whether an item that begins so names a group that is.
fn begins_within(top: &Dn, first: &First) -> bool
    ensures exact { result ≡ list_any (is_prefix_of top.now) (groups_of (first_of first.now)) }
{
    match first {
        First::ItemFirst(_, permissions) => permits_within(top, permissions),
        First::UserFirst(classes, _) => has_within(top, &classes.groups),
    }
}

// Whether the value is an item that names a group that is. The error comes where memory is wanted.
#[tactic(auto, unfolding(aci_item::specs::AciText::item_of))]
fn names_group(alloc: Global, top: &Dn, value: &Value) -> Result<bool, NoMemory>
    ensures ok { IfOk result (λ names. names ≡ names_group top.now value.now) }
{
    match read(alloc, value.octets()) {
        Ok(item) => Ok(begins_within(top, &item.first)),
        Err(BadText::NoMemory) => Err(AllocError),
        Err(BadText::Text) => Ok(false),
        Err(BadText::Part { .. }) => Ok(false),
    }
}

// Whether a value of the type is so.
fn names_group_in(alloc: Global, top: &Dn, kind: AttrId, entry: &Entry) -> Result<bool, NoMemory>
    ensures ok { IfOk result (λ names. names ≡ names_group_in top.now kind.0 entry.now) }
{
    for value in entry.values(kind) {
        if names_group(alloc, top, value)? {
            return Ok(true);
        }
    }
    Ok(false)
}

// Whether an access control item of the entry does.
fn lists_group(alloc: Global, top: &Dn, entry: &Entry) -> Result<bool, NoMemory>
    ensures ok { IfOk result (λ lists. lists ≡ lists_group top.now entry.now) }
{
    if names_group_in(alloc, top, AttrId::PRESCRIPTIVE_ACI, entry)? {
        return Ok(true);
    }
    if names_group_in(alloc, top, AttrId::ENTRY_ACI, entry)? {
        return Ok(true);
    }
    names_group_in(alloc, top, AttrId::SUBENTRY_ACI, entry)
}

/// Whether an access control item of an entry that is neither at the name nor below it names a group that is. All items are
/// read; the error comes where memory is wanted.
pub fn lists_group_outside(alloc: Global, tree: &Tree, top: &Dn) -> Result<bool, NoMemory>
    ensures ok { IfOk result (λ lists. lists ≡ lists_group_outside top.now (entries_of tree.now)) }
{
    for entry in Rows::new(tree) {
        if !is_prefix(top, entry.name()) && lists_group(alloc, top, entry)? {
            return Ok(true);
        }
    }
    Ok(false)
}
