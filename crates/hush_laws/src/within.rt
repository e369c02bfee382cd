//! What stands at and below a name.

ghost use Rattle.std.specs.Prelude.{◌≡◌, IfOk};
ghost use Rattle.std.specs.List.{list_any};
ghost use Rattle.dir_tree.specs.tree.Numbered.{entries_of};
ghost use Rattle.dir_tree.specs.Scope.{scoped};
ghost use Rattle.dir_tree.specs.declared.scope.Scope.TheVariants.{Sub};
ghost use Rattle.op_read.specs.read_model.Views.{view_of};
ghost use Rattle.op_read.specs.twin_laws.Twins.{is_below_suffix, shows_within};
ghost use Rattle.hush_laws.specs.TwinParts.{governs_within};
ghost use Rattle.hush_laws.specs.Rows.{is_number_shown};

use crate::rows::Rows;
use aci_item::Permission;
use dir_tree::dn_names::{Dn, is_prefix};
use dir_tree::{EntryNo, NoMemory, Scope, Tree};
use op_read::acdf_filters::{Item, Requester};
use op_read::directory::{Asking, Dir};
use std::alloc::Global;

/// Whether the name is below that of the suffix; false where there are no entries.
pub fn is_below_suffix(tree: &Tree, top: &Dn) -> bool
    ensures exact { result ≡ is_below_suffix top.now (entries_of tree.now) }
{
    let mut rows = Rows::new(tree);
    match rows.next() {
        Some(first) => is_prefix(first.name(), top) && first.name().len() < top.len(),
        None => false,
    }
}

/// Whether an entry at or below the name is a subentry or has an administrative role. Takes no memory.
pub fn governs_within(tree: &Tree, top: &Dn) -> bool
    ensures exact { result ≡ governs_within top.now (entries_of tree.now) }
{
    for entry in Rows::new(tree) {
        if is_prefix(top, entry.name()) && (entry.is_subentry() || entry.is_point()) {
            return true;
        }
    }
    false
}

// Whether the entry of the number is at or below the name and shown to the requester.
fn is_shown_at<D: Dir>(asking: &Asking<'_, D>, top: &Dn, number: EntryNo) -> bool
    ensures exact { result ≡ is_number_shown top.now (D.rows asking.now.dir.now) asking.now.who.now number.0 }
{
    let Some(target) = asking.at(number) else {
        return false;
    };
    if !is_prefix(top, target.entry.name()) {
        return false;
    }
    target.allows(Item::Entry, Permission::Browse)
        || target.allows(Item::Entry, Permission::Read)
        || target.allows(Item::Entry, Permission::ReturnDn)
        || target.allows(Item::Entry, Permission::DiscloseOnError)
}

// Whether an entry of those from the number on is.
fn is_shown_below<D: Dir>(asking: &Asking<'_, D>, top: &Dn, base: EntryNo) -> bool
    ensures exact { result
        ≡ list_any (is_number_shown top.now (D.rows asking.now.dir.now) asking.now.who.now)
        (scoped Sub base.0 (D.rows asking.now.dir.now)) }
{
    for number in asking.dir.tree().below(base, Scope::Sub) {
        if is_shown_at(asking, top, number) {
            return true;
        }
    }
    false
}

// Whether an entry at or below the name is shown to who asks.
fn is_any_shown<D: Dir>(asking: &Asking<'_, D>, top: &Dn) -> bool
    ensures exact { result
        ≡ shows_within top.now (view_of (entries_of (D.rows asking.now.dir.now)) asking.now.who.now) }
{
    let tree = asking.dir.tree();
    tree.entries_form_a_tree();
    match tree.suffix() {
        Some(suffix) => is_shown_below(asking, top, suffix),
        None => false,
    }
}

/// Whether an entry at or below the name is shown to the requester: it may browse it, read it, get its name or know of it
/// (X.501 18.4). The error comes where memory is wanted.
pub fn shows_within<D: Dir>(
    alloc: Global,
    dir: &D,
    top: &Dn,
    who: &Requester,
) -> Result<bool, NoMemory>
    ensures ok { IfOk result (λ shows.
        shows ≡ shows_within top.now (view_of (entries_of (D.rows dir.now)) who.now)) }
{
    let asking = Asking::new(alloc, dir, who)?;
    Ok(is_any_shown(&asking, top))
}
