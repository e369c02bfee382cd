//! Items split into tuples.

ghost use Rattle.std.specs.Prelude.{◌≡◌, true, false, [], ◌∷◌, ◌++◌, IfOk, OnOk, map};
ghost use Rattle.std.specs.List.{list_any};
ghost use Rattle.aci_item.specs.Permission.{is_same};
ghost use Rattle.aci_item.specs.AciTuples.{kept, split, split_first, tuple_with, tuples_of_item};
ghost use Rattle.aci_item.specs.item.Items.{ItemFirst, UserFirst};
ghost use Rattle.aci_item.specs.item.Views.{classes_of, items_of, item_permission_of, user_permission_of, item_of_code, tuple_of};

use crate::bits::Bits;
use crate::classes::UserClasses;
use crate::item::{AciItem, First, ItemPermission, UserPermission};
use crate::level::Level;
use crate::permission::Permission;
use crate::protected::ProtectedItems;
use std::alloc::{AllocError, Global};
use std::rc::Rc;

/// Users, how they must be authenticated, items, and the permissions that are granted, or denied (X.501 18.8.2).
#[derive(Drop)]
pub struct AciTuple {
    pub classes: Rc<UserClasses>,
    pub level: Level,
    pub items: Rc<ProtectedItems>,
    /// The bits of the permission: those of the other kind count nothing.
    pub bits: Bits,
    /// Whether permissions are granted; else they are denied.
    pub grants: bool,
    pub precedence: u8,
}

impl AciTuple {
    /// Whether the tuple has the permission.
    pub fn has(&self, permission: Permission) -> bool
        ensures exact { result ≡ list_any (is_same permission) (tuple_of self.now).permissions }
    {
        self.bits.has(permission, self.grants)
    }
}

// Puts a tuple at the end, where it has a permission.
fn put_tuple(tuples: &mut Vec<AciTuple>, tuple: AciTuple) -> Result<(), AllocError>
    ensures ok { OnOk result (map tuple_of tuples.new.items ≡ map tuple_of tuples.old.items ++ kept (tuple_of tuple ∷ [])) }
{
    if tuple.bits.has_some(tuple.grants) {
        tuples.push(tuple)?;
    }
    Ok(())
}

// What bits grant, or what they deny.
fn make_tuple(
    level: Level,
    precedence: u8,
    classes: &Rc<UserClasses>,
    items: &Rc<ProtectedItems>,
    bits: &Bits,
    grants: bool,
) -> Result<AciTuple, AllocError>
    ensures ok { IfOk result (λ tuple. tuple_of tuple
        ≡ tuple_with level precedence (classes_of classes.now.value) (items_of items.now.value) bits.now grants) }
{
    Ok(AciTuple {
        classes: classes.clone()?,
        level,
        items: items.clone()?,
        bits: bits.copy(),
        grants,
        precedence,
    })
}

// Puts what bits grant, and then what they deny.
fn put_split(
    tuples: &mut Vec<AciTuple>,
    level: Level,
    precedence: u8,
    classes: &Rc<UserClasses>,
    items: &Rc<ProtectedItems>,
    bits: &Bits,
) -> Result<(), AllocError>
    ensures ok { OnOk result (map tuple_of tuples.new.items ≡ map tuple_of tuples.old.items
        ++ kept (split level precedence (classes_of classes.now.value) (items_of items.now.value) bits.now)) }
{
    let granting = make_tuple(level, precedence, classes, items, bits, true)?;
    put_tuple(tuples, granting)?;
    let denying = make_tuple(level, precedence, classes, items, bits, false)?;
    put_tuple(tuples, denying)?;
    Ok(())
}

// The tuples of permissions to protected items.
fn item_tuples(
    alloc: Global,
    item: &AciItem,
    items: &Rc<ProtectedItems>,
    permissions: &[ItemPermission],
) -> Result<Vec<AciTuple>, AllocError>
    ensures ok { IfOk result (λ tuples. map tuple_of tuples.items ≡ kept (split_first item.now.level item.now.precedence
        (ItemFirst (items_of items.now.value) (map item_permission_of permissions.now)))) }
{
    let mut tuples = Vec::new(alloc);
    for permission in permissions {
        let precedence = permission.precedence.unwrap_or(item.precedence);
        put_split(
            &mut tuples,
            item.level,
            precedence,
            &permission.classes,
            items,
            &permission.bits,
        )?;
    }
    Ok(tuples)
}

// The tuples of permissions of users.
fn user_tuples(
    alloc: Global,
    item: &AciItem,
    classes: &Rc<UserClasses>,
    permissions: &[UserPermission],
) -> Result<Vec<AciTuple>, AllocError>
    ensures ok { IfOk result (λ tuples. map tuple_of tuples.items ≡ kept (split_first item.now.level item.now.precedence
        (UserFirst (classes_of classes.now.value) (map user_permission_of permissions.now)))) }
{
    let mut tuples = Vec::new(alloc);
    for permission in permissions {
        let own = permission.precedence.unwrap_or(item.precedence);
        put_split(
            &mut tuples,
            item.level,
            own,
            classes,
            &permission.items,
            &permission.bits,
        )?;
    }
    Ok(tuples)
}

/// The tuples of an item: each permission, in their order, is split into what it grants and then what it denies, and
/// those with a permission stay. A permission's own precedence stands in place of the item's. The error comes where
/// memory is refused.
#[tactic(auto, unfolding(crate::specs::AciTuples::tuples_of_item))]
pub fn tuples(alloc: Global, item: &AciItem) -> Result<Vec<AciTuple>, AllocError>
    ensures ok { IfOk result (λ tuples. map tuple_of tuples.items ≡ tuples_of_item (item_of_code item.now)) }
{
    match &item.first {
        First::ItemFirst(items, permissions) => item_tuples(alloc, item, items, permissions),
        First::UserFirst(classes, permissions) => user_tuples(alloc, item, classes, permissions),
    }
}
