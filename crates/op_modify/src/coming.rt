//! Whether an entry may come to its new place.

ghost use Rattle.std.specs.Prelude.{◌≡◌, not, Some, IfOk};
ghost use Rattle.dir_tree.specs.tree.Numbered.{entries_of};
ghost use Rattle.acdf_filters.specs.aci_item.declared.permission.Permission.TheVariants as permission;
ghost use Rattle.acdf_filters.specs.Asking as protected;
ghost use Rattle.acdf_filters.specs.Granted.{granted_new};
ghost use Rattle.read_model.specs.Views.{result_of};
ghost use Rattle.ldap_msg.specs.plain_values.Refusals.{first_some};
ghost use Rattle.op_modify.specs.Renames.{other_named, taken_refusal, is_unwelcome};
ghost use Rattle.op_modify.specs.Steps.{coming_rows};

use crate::renaming::{Renaming, moves};
use crate::replacing::rule_refusal;
use acdf_filters::Item;
use acdf_filters::aci_item::Permission;
use dir_tree::dn_names::{Dn, same};
use dir_tree::{Entry, NoMemory};
use ldap_msg::{LdapResult, ResultCode};
use op_add_delete::directory::{Asking, Dir, Newcomer, Target, result_of};
use std::alloc::Global;

// What is told of the entry that has the new name.
fn taken_code<D: Dir>(other: &Target<'_, '_, D>) -> ResultCode
    ensures exact { Some (result_of result) ≡ taken_refusal (entries_of (D.rows other.now.asking.now.dir.now))
        other.now.asking.now.who.now (Some other.now.entry.now) }
{
    if other.allows(Item::Entry, Permission::DiscloseOnError) {
        ResultCode::EntryAlreadyExists
    } else {
        ResultCode::InsufficientAccessRights
    }
}

// The refusal where an entry other than the target has the name.
fn taken_refusal<D: Dir>(alloc: Global, target: &Target<'_, '_, D>, name: &Dn) -> Option<LdapResult>
    ensures exact { result ≡ taken_refusal (entries_of (D.rows target.now.asking.now.dir.now))
        target.now.asking.now.who.now
        (other_named (entries_of (D.rows target.now.asking.now.dir.now)) target.now.entry.now name.now) }
{
    if same(name, target.entry.name()) {
        return None;
    }
    match target.asking.find(name) {
        Some(other) => Some(result_of(alloc, taken_code(&other))),
        None => None,
    }
}

// Whether the entry may not come to its new place. The error comes where memory is wanted.
fn is_barred<D: Dir>(alloc: Global, asking: &Asking<'_, D>, entry: &Entry) -> Result<bool, NoMemory>
    ensures ok { IfOk result (λ barred. barred ≡ not (granted_new (entries_of (D.rows asking.now.dir.now))
        asking.now.who.now entry.now protected.Entry permission.Import)) }
{
    let newcomer = Newcomer::new(alloc, asking, entry)?;
    Ok(!newcomer.allows(Item::Entry, Permission::Import))
}

// Whether the entry moves, and may not come to its new place. The error comes where memory is wanted.
fn is_unwelcome<D: Dir>(
    alloc: Global,
    asking: &Asking<'_, D>,
    renaming: &Renaming,
    entry: &Entry,
) -> Result<bool, NoMemory>
    ensures ok { IfOk result (λ unwelcome. unwelcome
        ≡ is_unwelcome (entries_of (D.rows asking.now.dir.now)) asking.now.who.now renaming.now entry.now) }
{
    if moves(renaming) {
        is_barred(alloc, asking, entry)
    } else {
        Ok(false)
    }
}

/// Why the entry that the target would become does not take its place. The error comes where memory is wanted.
pub(crate) fn coming_refusal<D: Dir>(
    alloc: Global,
    target: &Target<'_, '_, D>,
    renaming: &Renaming,
    entry: &Entry,
) -> Result<Option<LdapResult>, NoMemory>
    ensures ok { IfOk result (λ refusal. refusal ≡ first_some
        (coming_rows (entries_of (D.rows target.now.asking.now.dir.now)) target.now.asking.now.who.now
        renaming.now target.now.entry.now entry.now)) }
{
    if let Some(refusal) = taken_refusal(alloc, target, entry.name()) {
        return Ok(Some(refusal));
    }
    if is_unwelcome(alloc, target.asking, renaming, entry)? {
        return Ok(Some(result_of(alloc, ResultCode::InsufficientAccessRights)));
    }
    rule_refusal(alloc, target, entry)
}
