//! Whether an entry may leave its place for another.

ghost use Rattle.std.specs.Prelude.{◌≡◌, not, Some, IfOk};
ghost use Rattle.std.specs.Option.{option_map};
ghost use Rattle.dir_tree.specs.dn_names.NameOrder.{is_same};
ghost use Rattle.dir_tree.specs.tree.Trees.{named_in, has_name};
ghost use Rattle.dir_tree.specs.tree.Numbered.{entries_of, find_name};
ghost use Rattle.read_model.specs.Views.{view_of, no_such_object};
ghost use Rattle.ldap_msg.specs.plain_values.Refusals.{when, first_some};
ghost use Rattle.op_modify.specs.ReadRenames.{above};
ghost use Rattle.op_modify.specs.Renames.{is_withheld, is_unmovable};
ghost use Rattle.op_modify.specs.Steps.{leaving_rows};

use crate::renaming::{Renaming, asks_rename, moves};
use acdf_filters::Item;
use acdf_filters::aci_item::Permission;
use dir_tree::dn_names::{Dn, compare_front, same};
use dir_tree::{Entry, EntryNo, NoMemory, Tree};
use ldap_msg::{LdapResult, ResultCode};
use op_add_delete::directory::{Asking, Dir, Target, hidden, no_such_object, not_leaf, result_of};
use std::alloc::{AllocError, Global};

// Whether the target may not be renamed, where that is asked, or may not be taken from where it is.
fn is_withheld<D: Dir>(target: &Target<'_, '_, D>, renaming: &Renaming) -> bool
    ensures exact { result ≡ is_withheld (entries_of (D.rows target.now.asking.now.dir.now))
        target.now.asking.now.who.now renaming.now target.now.entry.now }
{
    (asks_rename(renaming) && !target.allows(Item::Entry, Permission::Rename))
        || (moves(renaming) && !target.allows(Item::Entry, Permission::Export))
}

// Whether the name is that of the superior that the entry is to have.
fn is_above(renaming: &Renaming, name: &Dn) -> bool
    ensures exact { result ≡ is_same (above renaming.now) name.now }
{
    match &renaming.superior {
        Some(superior) => same(superior, name),
        None => {
            let len = renaming.name.len().saturating_sub(1);
            compare_front(&renaming.name, len, name).is_eq()
        }
    }
}

// Whether the target is the suffix, or would be its own superior.
fn is_unmovable<D: Dir>(target: &Target<'_, '_, D>, renaming: &Renaming) -> bool
    ensures exact { result ≡ is_unmovable (entries_of (D.rows target.now.asking.now.dir.now)) renaming.now
        target.now.entry.now }
{
    target.is_suffix() || is_above(renaming, target.entry.name())
}

// The number of the superior that the entry is to have.
fn number_above(tree: &Tree, renaming: &Renaming) -> Option<EntryNo>
    ensures exact { option_map (λ no. no.0) result ≡ find_name (above renaming.now) tree.now }
{
    match &renaming.superior {
        Some(superior) => tree.find(superior),
        None => {
            let len = renaming.name.len().saturating_sub(1);
            tree.find_prefix(&renaming.name, len)
        }
    }
}

/// The superior that the entry is to have, if it is an entry.
pub fn find_above<'a>(tree: &'a Tree, renaming: &Renaming) -> Option<&'a Entry>
    ensures exact { option_map (λ entry. entry.now) result ≡ named_in (above renaming.now) (entries_of tree.now) }
{
    tree.entries_form_a_tree();
    match number_above(tree, renaming) {
        Some(number) => tree.at(number),
        None => None,
    }
}

// Whether the superior that the entry is to have is an entry.
fn has_above(tree: &Tree, renaming: &Renaming) -> bool
    ensures exact { result ≡ has_name (above renaming.now) (entries_of tree.now) }
{
    number_above(tree, renaming).is_some()
}

// The refusal where the superior is no entry. The error comes where memory is wanted; the present superior of an entry that
// isn't the suffix is an entry.
fn above_refusal<D: Dir>(
    alloc: Global,
    asking: &Asking<'_, D>,
    renaming: &Renaming,
) -> Result<Option<LdapResult>, NoMemory>
    ensures ok { IfOk result (λ refusal. refusal
        ≡ when (not (has_name (above renaming.now) (entries_of (D.rows asking.now.dir.now))))
        (no_such_object (view_of (entries_of (D.rows asking.now.dir.now)) asking.now.who.now) (above renaming.now))) }
{
    if has_above(asking.dir.tree(), renaming) {
        return Ok(None);
    }
    match &renaming.superior {
        Some(superior) => Ok(Some(no_such_object(alloc, asking, superior)?)),
        None => Err(AllocError),
    }
}

/// Why the target, which has the name, does not leave its place, whatever it would become. The error comes where memory is
/// wanted.
pub(crate) fn leaving_refusal<D: Dir>(
    alloc: Global,
    target: &Target<'_, '_, D>,
    renaming: &Renaming,
) -> Result<Option<LdapResult>, NoMemory>
    requires named { named_in renaming.now.name (entries_of (D.rows target.now.asking.now.dir.now))
        ≡ Some target.now.entry.now }
    ensures ok { IfOk result (λ refusal. refusal ≡ first_some
        (leaving_rows (entries_of (D.rows target.now.asking.now.dir.now)) target.now.asking.now.who.now
        renaming.now target.now.entry.now)) }
{
    let tree = target.asking.dir.tree();
    if is_withheld(target, renaming) {
        return Ok(Some(hidden(alloc, target, &renaming.name)?));
    }
    if is_unmovable(target, renaming) {
        return Ok(Some(result_of(alloc, ResultCode::UnwillingToPerform)));
    }
    if tree.has_below(target.number) {
        return Ok(Some(not_leaf(alloc, target, &renaming.name)?));
    }
    above_refusal(alloc, target.asking, renaming)
}
