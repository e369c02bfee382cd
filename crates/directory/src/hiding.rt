//! What is answered in place of what a requester may not do (X.511 7.11).

ghost use Rattle.std.specs.Prelude.{◌≡◌, Some, None, IfOk};
ghost use Rattle.dir_tree.specs.tree.Numbered.{entries_of};
ghost use Rattle.dir_tree.specs.tree.Trees.{named_in};
ghost use Rattle.read_model.specs.Views.{hidden, no_such_object};
ghost use Rattle.directory.specs.Asking.{view_in};

use crate::asking::{Asking, Target};
use crate::dir::Dir;
use crate::nearest::matched;
use crate::results::{result_of, result_with};
use acdf_filters::Item;
use acdf_filters::aci_item::Permission;
use dir_tree::NoMemory;
use dir_tree::dn_names::Dn;
use ldap_msg::{LdapResult, ResultCode};
use std::alloc::Global;

/// noSuchObject, with the name of the nearest entry above of which the requester may know (RFC 4511 4.1.9); no name where
/// there is none. The error comes where memory is wanted.
pub fn no_such_object<D: Dir>(
    alloc: Global,
    asking: &Asking<'_, D>,
    name: &Dn,
) -> Result<LdapResult, NoMemory>
    ensures ok { IfOk result (λ ended.
        ended ≡ no_such_object (view_in (D.rows asking.now.dir.now) asking.now.who.now) name.now) }
{
    match matched(asking, name) {
        Some(entry) => result_with(alloc, ResultCode::NoSuchObject, entry.name()),
        None => Ok(result_of(alloc, ResultCode::NoSuchObject)),
    }
}

/// What is answered in place of what may not be done with the name, which no entry has. The error comes where memory is
/// wanted.
pub fn absent<D: Dir>(
    alloc: Global,
    asking: &Asking<'_, D>,
    name: &Dn,
) -> Result<LdapResult, NoMemory>
    requires none { named_in name.now (entries_of (D.rows asking.now.dir.now)) ≡ None }
    ensures ok { IfOk result (λ ended.
        ended ≡ hidden (view_in (D.rows asking.now.dir.now) asking.now.who.now) name.now) }
{
    asking.dir.tree().entries_form_a_tree();
    no_such_object(alloc, asking, name)
}

/// What is answered in place of what may not be done with the name, which is the target's: insufficientAccessRights where
/// the requester may know of the target, and otherwise what is answered where there is none. The error comes where memory
/// is wanted.
pub fn hidden<D: Dir>(
    alloc: Global,
    target: &Target<'_, '_, D>,
    name: &Dn,
) -> Result<LdapResult, NoMemory>
    requires named { named_in name.now (entries_of (D.rows target.now.asking.now.dir.now))
        ≡ Some target.now.entry.now }
    ensures ok { IfOk result (λ ended. ended
        ≡ hidden (view_in (D.rows target.now.asking.now.dir.now) target.now.asking.now.who.now) name.now) }
{
    target.asking.dir.tree().entries_form_a_tree();
    if target.allows(Item::Entry, Permission::DiscloseOnError) {
        Ok(result_of(alloc, ResultCode::InsufficientAccessRights))
    } else {
        no_such_object(alloc, target.asking, name)
    }
}
