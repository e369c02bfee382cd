//! What a target's place in the tree forbids.

ghost use Rattle.std.specs.Prelude.{◌≡◌, IfOk};
ghost use Rattle.dir_tree.specs.tree.Numbered.{entries_of};
ghost use Rattle.directory.specs.Targets.{not_leaf};

use crate::asking::Target;
use crate::dir::Dir;
use crate::hiding::no_such_object;
use crate::results::result_of;
use acdf_filters::Item;
use acdf_filters::aci_item::Permission;
use dir_tree::NoMemory;
use dir_tree::dn_names::Dn;
use ldap_msg::{LdapResult, ResultCode};
use std::alloc::Global;

/// What is answered where entries stand below the target, which the name names, and it must be a leaf:
/// notAllowedOnNonLeaf (RFC 4511 appendix A.2), or what is answered where there is none, if the requester may not know of
/// the target. The error comes where memory is wanted.
pub fn not_leaf<D: Dir>(
    alloc: Global,
    target: &Target<'_, '_, D>,
    name: &Dn,
) -> Result<LdapResult, NoMemory>
    ensures ok { IfOk result (λ ended. ended ≡ not_leaf (entries_of (D.rows target.now.asking.now.dir.now))
        target.now.asking.now.who.now name.now target.now.entry.now) }
{
    if target.allows(Item::Entry, Permission::DiscloseOnError) {
        Ok(result_of(alloc, ResultCode::NotAllowedOnNonLeaf))
    } else {
        no_such_object(alloc, target.asking, name)
    }
}
