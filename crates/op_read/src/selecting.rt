//! Which entries a search selects.

ghost use Rattle.std.specs.Prelude.{◌≡◌};
ghost use Rattle.dir_tree.specs.Scope.{scoped, scoped_after};
ghost use Rattle.page_core.specs.read_model.Selecting.{is_seen, is_found};
ghost use Rattle.op_read.specs.Seeing.{row_in, scope_of};

use acdf_filters::Item;
use acdf_filters::aci_item::Permission;
use dir_tree::dn_names::Dn;
use dir_tree::{Entry, EntryNo, Scope, Walk};
use directory::{Asking, Dir, Target};
use ldap_msg::SearchScope;
use page_core::read_model::filter_match::{Prepared, is_true};

/// The scope of the walk over the tree that a search is over (RFC 4511 4.5.1.2).
pub(crate) fn scope_of(scope: SearchScope) -> Scope
    ensures exact { result ≡ scope_of scope }
{
    match scope {
        SearchScope::BaseObject => Scope::Base,
        SearchScope::SingleLevel => Scope::One,
        SearchScope::WholeSubtree => Scope::Sub,
    }
}

/// The walk over the entries of the scope, from the entry of the number on.
pub(crate) fn walk_from<'a, D: Dir>(
    asking: &Asking<'a, D>,
    scope: SearchScope,
    number: EntryNo,
) -> Walk<'a>
    ensures exact { result ≡ scoped (scope_of scope) number.0 (D.rows asking.now.dir.now) }
{
    asking.dir.tree().below(number, scope_of(scope))
}

/// The walk over those of them whose names come after the name: what comes before is not walked over.
pub(crate) fn walk_after<'a, D: Dir>(
    asking: &Asking<'a, D>,
    scope: SearchScope,
    number: EntryNo,
    after: &Dn,
) -> Walk<'a>
    ensures exact { result ≡ scoped_after (scope_of scope) number.0 after.now (D.rows asking.now.dir.now) }
{
    asking
        .dir
        .tree()
        .below_after(number, scope_of(scope), after)
}

/// Whether a search of the scope sees the entry, by the control of subentries (RFC 3672 3).
pub(crate) fn is_seen(scope: SearchScope, subentries: Option<bool>, entry: &Entry) -> bool
    ensures exact { result ≡ is_seen scope subentries entry.now }
{
    match subentries {
        None => scope.is_base() || !entry.is_subentry(),
        Some(true) => entry.is_subentry(),
        Some(false) => !entry.is_subentry(),
    }
}

/// Whether the entry may be browsed, matches the filter, and its name may be returned. The filter works on no entry that may
/// not be browsed, so that such an entry takes as long as its decision, whatever the filter.
pub(crate) fn is_found<D: Dir>(filter: &Prepared<'_>, target: &Target<'_, '_, D>) -> bool
    ensures exact { result ≡ is_found filter.now
        (row_in (D.rows target.now.asking.now.dir.now) target.now.asking.now.who.now target.now.entry.now) }
{
    target.allows(Item::Entry, Permission::Browse)
        && is_true(filter, target.entry, target)
        && target.allows(Item::Entry, Permission::ReturnDn)
}
